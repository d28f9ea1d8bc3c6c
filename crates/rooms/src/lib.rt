// What is lent is looked at here: a room of one value throughout, of words or of bytes. `fill` of std's slices makes it so: its clause `after`.
#![tactic(auto)]

ghost use Rattle.std.specs.Prelude.{◌≡◌, drop};
ghost use Rattle.std.specs.List.{list_all};

// Is every element from a place on the value?
pub fn are<T: Copy + PartialEq>(room: &[T], from: usize, value: T) -> bool
    ensures { result ≡ list_all (λ x. T.eq x value) (drop from room.now) }
{
    room.iter().skip(from).all(|x| *x == value)
}
