// The call of a C host (document 01, "Running a log"): "A C host makes one call with sheet, log, budget and an output of at least 12 bytes."
// "The host call looks at its output, then the whole sheet, then the log."
#![tactic(auto)]

ghost use Rattle.std.specs.Prelude.{◌≡◌, ◌≤◌, ◌++◌, length, drop};
ghost use Rattle.host.specs.Host.{Outcomes, Calls, twelve};

use runner::Outcome;

// ---- the five numbers

// The five numbers for a sheet, a log and a budget: the sheet's refusal ("Mask is 0 for .. refusals 1 to 10", and nothing is taken), or what the run over the log says.
pub fn outcome(sheet: &[u8], log: &[u8], budget: u32) -> Outcome
    ensures { Outcomes sheet.now log.now budget result }
{
    match book::translate(sheet) {
        Ok(book) => runner::run(&book.table, log, budget),
        Err(refused) => runner::turned_away(refused.fault.number(), refused.place as u32),
    }
}

// ---- the output

// "Bytes 0 to 11 are: answer; refusal number or 0; mask (u16); taken (u32); place (u32). Later bytes don't change."
fn put_outcome(out: &mut [u8], o: Outcome)
    requires { 12 ≤ length out.old }
    ensures { out.new ≡ twelve o ++ drop 12 out.old }
{
    store::put(out, 0, 1, o.answer as u64);
    store::put(out, 1, 1, o.refusal as u64);
    store::put(out, 2, 2, o.mask as u64);
    store::put(out, 4, 4, o.taken as u64);
    store::put(out, 8, 4, o.place as u64);
}

// The call. "15 output under 12 bytes: it is unchanged and the call returns 15 (else 0)". Else the twelve bytes of the five numbers are written, and the output's other bytes stay.
#[unsafe(no_mangle)]
pub extern "C" fn guard4_run(sheet: &[u8], log: &[u8], budget: u32, out: &mut [u8]) -> u32
    ensures { Calls sheet.now log.now budget out.old result out.new }
{
    if out.len() < 12 {
        return 15;
    }
    put_outcome(out, outcome(sheet, log, budget));
    0
}
