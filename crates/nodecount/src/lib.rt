// The number of nodes of a table, by which the work needed is measured: one pass that compares each record with the one before it.
#![tactic(auto)]

ghost use Rattle.std.specs.Prelude.{◌≡◌, ℕ, ◌*◌, ◌≤◌};
ghost use Rattle.theory.specs.Routes.{Table};
ghost use Rattle.words.specs.Keys.{key_of};
ghost use Rattle.nodecount.specs.Nodes.{bare, new_nodes, node_at, nodes};
ghost use Rattle.records.specs.Sized.{IsSize, width_in, routes_in};

use records::sized::{key_at, length_at};

// Has the record before a node at depth 5 * m in which the address lies? The addresses, of any width up to 64, by their keys.
fn is_shared(key: u64, last_key: u64, last_len: u8, m: u8) -> bool
    requires { (1 ≤ m) × (m ≤ 12) }
    ensures { (w a b : ℕ) → w ≤ 64 → 5 * m ≤ w → key ≡ key_of w a → last_key ≡ key_of w b → result ≡ node_at w m a (bare b last_len) }
{
    let depth = 5 * m;
    let rest = 64 - depth;
    depth <= last_len && last_key >> rest == key >> rest
}

// The nodes that a record brings beside those of the record before it: those below the deepest that both have.
pub fn new_nodes(key: u64, len: u8, last_key: u64, last_len: u8) -> usize
    requires { len ≤ 64 }
    ensures { (w a b : ℕ) → w ≤ 64 → len ≤ w → key ≡ key_of w a → last_key ≡ key_of w b → result ≡ new_nodes w (bare b last_len) (bare a len) }
{
    let levels = len / 5;
    for m in (1..=levels).rev() {
        if is_shared(key, last_key, last_len, m) {
            return (levels - m) as usize;
        }
    }
    levels as usize
}

// The nodes of a table with records of this size that keep the rules.
pub fn count_nodes(table: &[u8], size: usize) -> usize
    requires { IsSize size × Table (width_in size) (routes_in size table.now) }
    ensures { result ≡ nodes (width_in size) (routes_in size table.now) }
{
    let n = table.len() / size;
    let mut count: usize = 1;
    let mut last_key: u64 = 0;
    let mut last_len: u8 = 0;
    for i in 0..n {
        let key = key_at(table, size, i);
        let len = length_at(table, size, i);
        count += new_nodes(key, len, last_key, last_len);
        last_key = key;
        last_len = len;
    }
    count
}
