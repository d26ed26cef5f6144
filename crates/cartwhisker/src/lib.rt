// The message check and the listing with C calling rules, for a host in another language. Each call gives one number of its answer.
#![tactic(auto)]

ghost use Rattle.std.specs.Prelude.{◌≡◌};
ghost use Rattle.standard.specs.Refusals.{numbers_of_lem};
ghost use Rattle.cartwhisker.specs.Calls.{which_of_lem, check_number, list_number, list_buffer};

use message::{RefusedAt, check, list};

// 0 to 4 pick number, a, b, type, start.
// kept: a number, since C hands it in.
fn which_of(which: u32, e: RefusedAt) -> u64
    ensures { result ≡ which_of_lem which (numbers_of_lem e.refusal) e.type_number e.start }
{
    let said = e.refusal.numbers();
    let picked = match which {
        0 => said.number,
        1 => said.a,
        2 => said.b,
        3 => e.type_number,
        _ => e.start,
    };
    picked as u64
}

#[unsafe(no_mangle)]
pub extern "C" fn cartwhisker_check(layout: &[u8], message: &[u8], which: u32) -> u64
    ensures { result ≡ check_number layout.now message.now which }
{
    if which > 4 {
        return 0;
    }
    match check(layout, message) {
        Ok(_) => 0,
        Err(e) => which_of(which, e),
    }
}

#[unsafe(no_mangle)]
pub extern "C" fn cartwhisker_list(
    layout: &[u8],
    message: &[u8],
    records: &mut [u8],
    which: u32,
) -> u64
    ensures value { result ≡ list_number layout.now message.now records.old which }
    ensures records_after { records.new ≡ list_buffer layout.now message.now records.old which }
{
    if which > 4 {
        return 0;
    }
    match list(layout, message, records) {
        Ok(n) => { if which == 1 { n as u64 } else { 0 } }
        Err(e) => which_of(which, e),
    }
}
