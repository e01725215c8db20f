// The call over a log, for C: a static library over the library `host`. The export calls the function there of the same name, whose clauses stand here again. `hosts/build` puts its object
// into target/libguard.a.
#![tactic(auto)]

ghost use Rattle.host.specs.Host.{Calls};

// "15 output under 12 bytes: it is unchanged and the call returns 15 (else 0)". Else the twelve bytes of the five numbers are written, and the output's other bytes stay.
#[unsafe(no_mangle)]
pub extern "C" fn guard4_run(sheet: &[u8], log: &[u8], budget: u32, out: &mut [u8]) -> u32
    ensures { Calls sheet.now log.now budget out.old result out.new }
{
    host::guard4_run(sheet, log, budget, out)
}
