// The folds and pushes, which carry one level of a node's positions to the next: the fold of the child slots by the fold card, the others by
// ladders of shifts and masks.

ghost use Rattle.words.specs.Rules.{Folded, Pushed, PushedSlots};

use crate::card::fold_card;

// 32 child slots to level 4: the folds of the four bytes, in the order of the bytes.
pub fn fold_children(cc: u32) -> u32
    ensures { Folded 4 cc result }
{
    let card = fold_card();
    let p = card[(cc >> 24) as usize] as u32;
    let p = (p << 4) | card[((cc >> 16) % 256) as usize] as u32;
    let p = (p << 4) | card[((cc >> 8) % 256) as usize] as u32;
    let p = (p << 4) | card[(cc % 256) as usize] as u32;
    p << 15
}

// Level 4 to level 3.
pub fn fold_l4(cov: u32) -> u32
    ensures { Folded 3 cov result }
{
    let s = cov >> 8;
    let p = s & (s >> 1) & (0x5555 << 7);
    let p = (p | (p >> 1)) & (0x3333 << 7);
    let p = (p | (p >> 2)) & (0x0F0F << 7);
    (p | (p >> 4)) & (0x00FF << 7)
}

// Level 3 to level 2.
pub fn fold_l3(cov: u32) -> u32
    ensures { Folded 2 cov result }
{
    let s = cov >> 4;
    let p = s & (s >> 1) & (0x55 << 3);
    let p = (p | (p >> 1)) & (0x33 << 3);
    (p | (p >> 2)) & (0x0F << 3)
}

// Level 2 to level 1.
pub fn fold_l2(cov: u32) -> u32
    ensures { Folded 1 cov result }
{
    let s = cov >> 2;
    let p = s & (s >> 1) & (0x5 << 1);
    (p | (p >> 1)) & (0x3 << 1)
}

// Level 1 to level 0.
pub fn fold_l1(cov: u32) -> u32
    ensures { Folded 0 cov result }
{
    (cov >> 1) & (cov >> 2) & 1
}

// Level 0 to level 1.
pub fn push_l0(m: u32) -> u32
    ensures { Pushed 0 m result }
{
    let s = (m & 0b1) << 1;
    s | (s << 1)
}

// Level 1 to level 2.
pub fn push_l1(m: u32) -> u32
    ensures { Pushed 1 m result }
{
    let s = (m & 0b110) << 2;
    let e = (s | (s << 1)) & (0x5 << 3);
    e | (e << 1)
}

// Level 2 to level 3.
pub fn push_l2(m: u32) -> u32
    ensures { Pushed 2 m result }
{
    let s = (m & (0xF << 3)) << 4;
    let e = (s | (s << 2)) & (0x33 << 7);
    let e = (e | (e << 1)) & (0x55 << 7);
    e | (e << 1)
}

// Level 3 to level 4.
pub fn push_l3(m: u32) -> u32
    ensures { Pushed 3 m result }
{
    let s = (m & (0xFF << 7)) << 8;
    let e = (s | (s << 4)) & (0x0F0F << 15);
    let e = (e | (e << 2)) & (0x3333 << 15);
    let e = (e | (e << 1)) & (0x5555 << 15);
    e | (e << 1)
}

// Level 4 to the 32 child slots.
pub fn push_l4(m: u32) -> u32
    ensures { PushedSlots m result }
{
    let p = m >> 15;
    let e = (p | (p << 8)) & 0x00FF_00FF;
    let e = (e | (e << 4)) & 0x0F0F_0F0F;
    let e = (e | (e << 2)) & 0x3333_3333;
    let e = (e | (e << 1)) & 0x5555_5555;
    e | (e << 1)
}
