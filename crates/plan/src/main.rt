// `plan INSTALLED NEW` reads two maps from the files of these names, at most 8,200 bytes of each, masks their host bits, and prints steps that change the first
// to the second without a detour, a step a line; or `gave up`, or the refusal.

#![tactic(auto)]

use records::Form;
use std::io;
use steplines::plan_text;
use steprooms::empty_room;
use streams::named::read_named;

fn main(rt: HostRuntime) -> io::Result<()> {
    let mut installed = [0u8; 8200];
    let mut new = [0u8; 8200];
    let mut out = [0u8; 59428];
    let first = read_named(&rt, 1, &mut installed)?;
    let second = read_named(&rt, 2, &mut new)?;
    let Some(a) = first else {
        return Ok(());
    };
    let Some(b) = second else {
        return Ok(());
    };
    let form = Form {
        strict: false,
        long: false,
    };
    let mut room = empty_room();
    let end = plan_text(
        &installed[..a],
        &new[..b],
        form,
        &mut room,
        false,
        0,
        &mut out,
    );
    rt.write_all(&out[..end])
}
