// The machine over a whole run file: one entry, which plays it. Beside it whole-file functions. Other crates export them to a C host, each by itself,
// since a second caller of the run in one library would make the first one slower. All else is private to this crate.
//
// state: the machine's state. stores: the list of an index's stores. who: which core. orders: which index carries an order. marks: what an entry came
// to. moves: what each action does to the state. refusal: why an entry is refused. reads: what the machine reads of the run file. run: the run over all
// entries. report: the twelve numbers. race: only, does it race?
//
// Below it, in crates of their own: the room rule, the run file's parts and codes, numbers as bytes.
#![tactic(auto)]

mod marks;
mod moves;
mod orders;
pub mod race;
mod reads;
mod refusal;
mod report;
mod run;
mod state;
mod stores;
mod who;

ghost use Rattle.model.specs.Outcome.{Outcome};
ghost use Rattle.file.specs.Errors.{code_in};

use file::code::check_call;
use file::error::FileError;

// Plays a run file, or refuses the file or the call. Where it is played the marks, the bytes read and the report stand in the three lent buffers;
// where it is refused nothing was written.
pub fn ferrulique_run(
    file: &[u8],
    marks: &mut [u8],
    out: &mut [u8],
    report: &mut [u8],
) -> Result<(), FileError>
    ensures { Outcome file.now marks.old out.old report.old (code_in result) marks.new out.new report.new }
{
    check_call(file, marks.len(), out.len(), report.len())?;
    let ran = crate::run::run(file, 1, marks, out);
    crate::report::put_report(report, crate::report::numbers(ran));
    Ok(())
}
