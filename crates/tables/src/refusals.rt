//! Refused lines by their numbers, where neighbours with one fault are kept as one.

ghost use Rattle.std.specs.Prelude.{◌≡◌, ◌+◌, ◌<◌, ◌++◌, ◌^◌, ◌∷◌, [], All, IsTrue, OnOk, false, map};
ghost use Rattle.tables.specs.Inside.Refusals.{lines_of_run, lines_of_runs};

use lines::LineFault;
use std::alloc::{AllocError, Global};
use std::marker::Model;

/// Refused lines, each by its number and with its fault.
#[derive(Drop)]
pub(crate) struct Refusals {
    runs: Vec<Run>,
}

/// A refused line, and neighbours behind it with the same fault.
#[derive(Clone, Copy)]
struct Run {
    /// The number of the line.
    first: u64,
    /// How many neighbours there are.
    more: u64,
    /// The fault of each of them.
    fault: LineFault,
}

impl Model for Refusals {
    ghost use Rattle.std.specs.Prelude.{ℕ, List};
    ghost use Rattle.std.specs.Coded.{codes};
    ghost use Rattle.semantics.specs.contracts.line_fault.LineFault as line_fault;
    ghost use Rattle.semantics.specs.declared.line_fault.LineFault.{LineFault};
    ghost use Rattle.tables.specs.Inside.Refusals.{lines_of_runs};

    ghost Value = { List (ℕ × LineFault) };

    ghost coded = { Prim.hlevel (codes, line_fault.the_row.coded) };

    ghost view = { λ refusals. lines_of_runs refusals.runs.items };
}

impl Refusals {
    ghost use Rattle.std.specs.Prelude.{IfOk};

    /// No line.
    pub(crate) fn new(alloc: Global) -> Refusals
        ensures { result ≡ [] }
    {
        Refusals {
            runs: Vec::new(alloc),
        }
    }

    /// The lines of a list.
    pub(crate) fn of(alloc: Global, list: &[(u64, LineFault)]) -> Result<Refusals, AllocError>
        ensures { IfOk result (λ refusals. refusals ≡ list.now) }
    {
        let mut refusals = Refusals::new(alloc);
        for (number, fault) in list {
            refusals.push(*number, *fault)?;
        }
        Ok(refusals)
    }

    /// Puts one more line behind the others.
    pub(crate) fn push(&mut self, number: u64, fault: LineFault) -> Result<(), AllocError>
        ensures { OnOk result (self.new ≡ self.old ++ (number, fault) ∷ []) }
    {
        push_line(&mut self.runs, number, fault)
    }

    /// Puts more lines behind the others, each with a number that is so much greater.
    pub(crate) fn put_behind(&mut self, before: u64, more: &Refusals) -> Result<(), AllocError>
        requires { All (λ line. before + line.0 < 2 ^ 64) more.now }
        ensures { OnOk result
            (self.new ≡ self.old ++ map (λ line. (before + line.0, line.1)) more.now) }
    {
        put_runs(&mut self.runs, before, more.runs.as_slice())
    }

    /// Puts the lines behind those of a list, each with a number that is so much greater.
    pub(crate) fn list_behind(
        &self,
        before: u64,
        list: &mut Vec<(u64, LineFault)>,
    ) -> Result<(), AllocError>
        requires { All (λ line. before + line.0 < 2 ^ 64) self.now }
        ensures { OnOk result (list.new.items
            ≡ list.old.items ++ map (λ line. (before + line.0, line.1)) self.now) }
    {
        list_runs(list, before, self.runs.as_slice())
    }
}

impl Run {
    ghost use Rattle.std.specs.Prelude.{◌↔◌};

    /// Whether the line is the next neighbour behind the run, and has its fault.
    fn is_before(&self, number: u64, fault: LineFault) -> bool
        ensures { IsTrue result
            ↔ (number ≡ self.now.first + self.now.more + 1) × (fault ≡ self.now.fault) }
    {
        self.fault == fault && self.first < number && number - self.first - 1 == self.more
    }

    /// Takes the line, where it is the next neighbour and has the same fault. The answer is whether
    /// it does.
    fn take(&mut self, number: u64, fault: LineFault) -> bool
        ensures taken { IsTrue result
            → lines_of_run self.new ≡ lines_of_run self.old ++ (number, fault) ∷ [] }
        ensures same { result ≡ false → self.new ≡ self.old }
    {
        if !self.is_before(number, fault) {
            return false;
        }
        self.more += 1;
        true
    }
}

/// Puts one more line behind the runs: to the last one where it is the next neighbour with the same
/// fault, else as a run of its own.
fn push_line(runs: &mut Vec<Run>, number: u64, fault: LineFault) -> Result<(), AllocError>
    ensures { OnOk result (lines_of_runs runs.new.items
        ≡ lines_of_runs runs.old.items ++ (number, fault) ∷ []) }
{
    if lengthen_last(runs, number, fault) {
        return Ok(());
    }
    runs.push(Run {
        first: number,
        more: 0,
        fault,
    })?;
    Ok(())
}

/// Puts one more line to the last run, where it is the next neighbour with the same fault. The
/// answer is whether it is.
fn lengthen_last(runs: &mut Vec<Run>, number: u64, fault: LineFault) -> bool
    ensures longer { IsTrue result → lines_of_runs runs.new.items
        ≡ lines_of_runs runs.old.items ++ (number, fault) ∷ [] }
    ensures same { result ≡ false → runs.new.items ≡ runs.old.items }
{
    match runs.last_mut() {
        Some(run) => run.take(number, fault),
        None => false,
    }
}

/// Puts more runs behind others, each with numbers that are so much greater.
fn put_runs(runs: &mut Vec<Run>, before: u64, more: &[Run]) -> Result<(), AllocError>
    requires { All (λ line. before + line.0 < 2 ^ 64) (lines_of_runs more.now) }
    ensures { OnOk result (lines_of_runs runs.new.items ≡ lines_of_runs runs.old.items
        ++ map (λ line. (before + line.0, line.1)) (lines_of_runs more.now)) }
{
    for run in more {
        runs.push(Run {
            first: before + run.first,
            more: run.more,
            fault: run.fault,
        })?;
    }
    Ok(())
}

/// Puts the lines of runs behind those of a list, each with a number that is so much greater.
fn list_runs(list: &mut Vec<(u64, LineFault)>, before: u64, runs: &[Run]) -> Result<(), AllocError>
    requires { All (λ line. before + line.0 < 2 ^ 64) (lines_of_runs runs.now) }
    ensures { OnOk result (list.new.items ≡ list.old.items
        ++ map (λ line. (before + line.0, line.1)) (lines_of_runs runs.now)) }
{
    for run in runs {
        list_run(list, before, *run)?;
    }
    Ok(())
}

/// Puts the lines of a run behind those of a list, each with a number that is so much greater.
fn list_run(list: &mut Vec<(u64, LineFault)>, before: u64, run: Run) -> Result<(), AllocError>
    requires { All (λ line. before + line.0 < 2 ^ 64) (lines_of_run run) }
    ensures { OnOk result (list.new.items
        ≡ list.old.items ++ map (λ line. (before + line.0, line.1)) (lines_of_run run)) }
{
    let first = before + run.first;
    list.push((first, run.fault))?;
    for place in 0..run.more {
        list.push((first + 1 + place, run.fault))?;
    }
    Ok(())
}
