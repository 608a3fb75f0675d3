// The library that a C host calls: one entry, which plays a whole run file.
#![tactic(auto)]

ghost use Rattle.model.specs.Outcome.{Outcome};

// Plays a run file. The answer is its code; for code 0 the marks, the bytes read and the report stand in the three lent buffers, and for any
// other code nothing was written.
#[unsafe(no_mangle)]
pub extern "C" fn ferrulique_run(
    file: &[u8],
    marks: &mut [u8],
    out: &mut [u8],
    report: &mut [u8],
) -> u32
    ensures { Outcome file.now marks.old out.old report.old result marks.new out.new report.new }
{
    match ring::ferrulique_run(file, marks, out, report) {
        Ok(()) => 0,
        Err(refused) => refused.code(),
    }
}
