// Reads 32-bit words from standard input to its end, and writes for each the ten results of the folds and pushes: fold_children, fold_l4 to
// fold_l1, push_l0 to push_l4. Words are four bytes, most significant first; one that the input breaks off in is passed over.
#![tactic(auto)]

use std::io;
use std::io::Read;
use streams::read_full;
use words::ladder::{
    fold_children, fold_l1, fold_l2, fold_l3, fold_l4, push_l0, push_l1, push_l2, push_l3, push_l4,
};

// The folds of a word, and its pushes.
fn results(x: u32) -> [u32; 10] {
    [
        fold_children(x),
        fold_l4(x),
        fold_l3(x),
        fold_l2(x),
        fold_l1(x),
        push_l0(x),
        push_l1(x),
        push_l2(x),
        push_l3(x),
        push_l4(x),
    ]
}

// Puts the ten results of each word of the room into `out`, one after another.
fn answers(room: &[u8], out: &mut [u8]) {
    let (words, _) = room.as_chunks::<4>();
    let (rows, _) = out.as_chunks_mut::<40>();
    for (word, row) in words.iter().zip(rows) {
        let (places, _) = row.as_chunks_mut::<4>();
        for (x, place) in results(u32::from_be_bytes(*word)).iter().zip(places) {
            *place = x.to_be_bytes();
        }
    }
}

// Answers the next words, at most 1,024. Is there more to read?
fn turn(rt: &impl Print, input: &mut impl Read) -> io::Result<bool> {
    let mut room = [0u8; 4096];
    let mut out = [0u8; 40960];
    let got = read_full(input, &mut room)?;
    let n = got / 4;
    answers(&room[..n * 4], &mut out);
    rt.write_all(&out[..n * 40])?;
    Ok(got == 4096)
}

// A proved loop has to end, so the turns are counted up to a number that no input uses up.
fn main(rt: HostRuntime) -> io::Result<()> {
    let mut input = rt.stdin();
    for _ in 0..u64::MAX {
        if !turn(&rt, &mut input)? {
            break;
        }
    }
    Ok(())
}
