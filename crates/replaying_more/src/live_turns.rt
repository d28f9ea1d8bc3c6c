// The cases of call 10, the live map: the lines of the commands. The room is filled before them, and no line that says that it was touched is ever kept.

ghost use Rattle.std.specs.Prelude.{◌≡◌, ◌≤◌, length};
ghost use Rattle.text.specs.Text.{Put};
ghost use Rattle.replaying_more.specs.LiveKept.{live_answer};

use kept::FILLED_WORD;
use live_cases::put_commands;

// The lines of the commands on a room, from the start of the text; another room of the same size is lent for what was in it before each.
#[tactic(auto, unfolding(crate::specs::LiveKept::live_answer))]
fn live_lines(commands: &[u8], room: &mut [u32], before: &mut [u32], text: &mut [u8]) -> usize
    requires commands_len_bound { length commands.now ≤ 65535 }
    requires before_len { length before.old ≡ length room.old }
    requires in_bounds { 524288 ≤ length text.old }
    ensures { Put (live_answer commands.now (length room.old)) 0 result text.old text.new }
{
    room.fill(FILLED_WORD);
    put_commands(commands, room, before, 0, text)
}

// A room of zeros. Made by a call, it is to the caller an array of that length and no list of that many zeros.
fn zeros() -> [u32; 412240] {
    [0; 412240]
}

// The lines of the commands on a room of so many words.
pub fn live_text(commands: &[u8], words: usize, text: &mut [u8]) -> usize
    requires commands_len_bound { length commands.now ≤ 65535 }
    requires words_bound { words ≤ 412240 }
    requires in_bounds { 524288 ≤ length text.old }
    ensures put { Put (live_answer commands.now words) 0 result text.old text.new }
    ensures upper_bound { result ≤ length text.old }
{
    let mut room = zeros();
    let mut before = zeros();
    live_lines(commands, &mut room[..words], &mut before[..words], text)
}
