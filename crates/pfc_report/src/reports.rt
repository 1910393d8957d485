//! The report of a run's ending.
ghost use Rattle.std.specs.Prelude.{◌≡◌, ◌<◌, ◌++◌, IfOk, OnOk, MatchOption, None, Some, length};
ghost use Rattle.pfc_base.specs.Faults.{number_of};
ghost use Rattle.pfc_code.specs.Images.{plain_image};
ghost use Rattle.pfc_report.specs.Reports.{HasReport, NameProcesses, NamesProcess, at_line, ending_text, process_text, report_text, script_line};
ghost use Rattle.pfc_report.specs.Reports.{script_standings, standing_line, standings_text, why_text, words_of, words_of_wait};

use pfc_base::Memory;
use pfc_code::{Image, Page};
use pfc_state::{Ending, ScriptWhy, Standing, State, Why};
use std::alloc::Global;

/// The report of a run: the ending, and where it asks for them the standings, one line for each process that is
/// neither idle nor finished, in the order in which they are given. `open_line` says that the output before it
/// ends within a line, which the report ends first. Its only refusal is want of memory.
pub fn report(
    alloc: Global,
    ending: &Ending,
    standings: &[Standing],
    image: &Image,
    open_line: bool,
) -> Result<Vec<u8>, Memory>
    requires report { HasReport ending.now }
    requires process { NamesProcess (plain_image image.now) ending.now }
    requires standings { NameProcesses (plain_image image.now) standings.now }
    ensures { IfOk result (λ text. text.items ≡ report_text ending.now standings.now (plain_image image.now) open_line) }
{
    let mut page = Page::new(alloc);
    if open_line {
        page.text(b"\n")?;
    }
    print_ending(&mut page, ending, standings, image)?;
    Ok(page.into_bytes())
}

fn print_ending(
    page: &mut Page,
    ending: &Ending,
    standings: &[Standing],
    image: &Image,
) -> Result<(), Memory>
    requires report { HasReport ending.now }
    requires process { NamesProcess (plain_image image.now) ending.now }
    requires standings { NameProcesses (plain_image image.now) standings.now }
    ensures { OnOk result (page.new ≡ page.old ++ ending_text (plain_image image.now) standings.now ending.now) }
{
    match *ending {
        Ending::Finished => page.text(b"-- finished\n"),
        Ending::Fault {
            process,
            line,
            fault,
        } => {
            page.text(b"-- fault ")?;
            page.number(fault.number() as u64)?;
            page.text(b": ")?;
            page.text(fault.text().as_bytes())?;
            page.text(b" in ")?;
            print_process(page, process, image)?;
            print_at_line(page, line)
        }
        Ending::Deadlock => {
            page.text(b"-- deadlock\n")?;
            print_standings(page, standings, image)
        }
        Ending::Limit(actions) => {
            page.text(b"-- limit of ")?;
            page.number(actions)?;
            page.text(b" actions reached\n")?;
            print_standings(page, standings, image)
        }
        Ending::Script { item, why } => {
            print_script_line(page, item, why)?;
            print_script_standings(page, why, standings, image)
        }
        Ending::SinkFailed | Ending::Memory => unreachable!(),
    }
}

fn print_script_standings(
    page: &mut Page,
    why: ScriptWhy,
    standings: &[Standing],
    image: &Image,
) -> Result<(), Memory>
    requires { NameProcesses (plain_image image.now) standings.now }
    ensures { OnOk result (page.new ≡ page.old ++ script_standings (plain_image image.now) standings.now why) }
{
    match why {
        ScriptWhy::NotReady(_) | ScriptWhy::NoProcess(_) | ScriptWhy::Ended => {
            print_standings(page, standings, image)
        }
        ScriptWhy::NotANumber => Ok(()),
    }
}

fn print_script_line(page: &mut Page, item: u64, why: ScriptWhy) -> Result<(), Memory>
    ensures { OnOk result (page.new ≡ page.old ++ script_line item why) }
{
    page.text(b"-- script stopped at item ")?;
    page.number(item)?;
    page.text(b": ")?;
    print_why(page, why)?;
    page.text(b"\n")
}

fn print_why(page: &mut Page, why: ScriptWhy) -> Result<(), Memory>
    ensures { OnOk result (page.new ≡ page.old ++ why_text why) }
{
    match why {
        ScriptWhy::NotReady(process) => {
            page.text(b"process ")?;
            page.number(process as u64)?;
            page.text(b" is not ready")
        }
        ScriptWhy::NoProcess(process) => {
            page.text(b"there is no process ")?;
            page.number(process as u64)
        }
        ScriptWhy::Ended => page.text(b"the script has ended"),
        ScriptWhy::NotANumber => page.text(b"not a number"),
    }
}

fn print_standings(page: &mut Page, standings: &[Standing], image: &Image) -> Result<(), Memory>
    requires { NameProcesses (plain_image image.now) standings.now }
    ensures { OnOk result (page.new ≡ page.old ++ standings_text (plain_image image.now) standings.now) }
{
    for standing in standings {
        print_standing(page, standing, image)?;
    }
    Ok(())
}

fn print_standing(page: &mut Page, standing: &Standing, image: &Image) -> Result<(), Memory>
    requires { standing.now.process < length image.now.processes.items }
    ensures { OnOk result (page.new ≡ page.old ++ standing_line (plain_image image.now) standing.now) }
{
    let Some(words) = state_words(standing.state) else {
        return Ok(());
    };
    print_process(page, standing.process, image)?;
    page.text(b": ")?;
    page.text(words.as_bytes())?;
    print_at_line(page, standing.line)
}

fn print_process(page: &mut Page, process: u32, image: &Image) -> Result<(), Memory>
    requires { process < length image.now.processes.items }
    ensures { OnOk result (page.new ≡ page.old ++ process_text (plain_image image.now) process) }
{
    page.text(b"process ")?;
    page.number(process as u64)?;
    page.text(b" ")?;
    page.text(image.processes[process as usize].label.bytes())
}

fn print_at_line(page: &mut Page, line: u32) -> Result<(), Memory>
    ensures { OnOk result (page.new ≡ page.old ++ at_line line) }
{
    page.text(b" at line ")?;
    page.number(line as u64)?;
    page.text(b"\n")
}

/// The words for a standing, None where the process is idle or has finished.
fn state_words(state: State) -> Option<&'static str>
    ensures { MatchOption result (words_of state ≡ None) (λ words. words_of state ≡ Some words.now) }
{
    match state {
        State::Idle | State::Done => None,
        State::Created => Some("created"),
        State::Ready => Some("ready"),
        State::Waiting(why) => Some(wait_words(why)),
    }
}

fn wait_words(why: Why) -> &'static str
    ensures { result.now ≡ words_of_wait why }
{
    match why {
        Why::Coend => "waiting at coend",
        Why::Semaphore(_) => "waiting on a semaphore",
        Why::Send(_) => "waiting to send",
        Why::Receive(_) => "waiting to receive",
        Why::Call { .. } => "waiting for an entry",
        Why::Meeting(_) => "in a rendezvous",
        Why::Accept(_) => "waiting to accept",
        Why::Select { .. } => "waiting in a select",
        Why::Enter(_) => "waiting to enter a monitor",
        Why::Condition { .. } => "waiting on a condition",
        Why::Resumer(_) => "waiting after resume",
        Why::Entrant(_) => "waiting to enter a resource",
        Why::Barred { .. } => "waiting at a guard",
        Why::Sleep(_) => "sleeping",
    }
}
