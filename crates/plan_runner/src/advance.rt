//! Advances a page's machine to where it waits or is done.
ghost use Rattle.std.specs.Prelude.{◌≡◌, ◌+◌, ◌≤◌, IfOk, OnOk, min};
ghost use Rattle.answer_board.specs.Board.{log_of};
ghost use Rattle.esi_meaning.specs.Meaning.{most_legs};
ghost use Rattle.plan_machine.specs.Machine as spec;
ghost use Rattle.plan_machine.specs.Machine.{step};
ghost use Rattle.plan_machine.specs.LastLeg.{tried_in};
ghost use Rattle.plan_machine.specs.Progress.{weight, Falls, Ready};
ghost use Rattle.plan_runner.specs.LastLeg.{FailsAt, Remembers};
ghost use Rattle.plan_runner.specs.Reached.{Reaches, Stops};
ghost use Rattle.plan_runner.specs.Resumed.{StandsAt, Told, IfWent};
ghost use Rattle.plan_runner.specs.Shown.{shown_machine, shown_frames, ArePlaced};

use crate::leg::Setting;
use crate::machine::Machine;
use crate::step::{Reached, run};
use edge_types::NoMemory;
use plan_compiler::Form;

// How far a page has come, and in how many steps.
#[derive(Drop)]
pub(crate) struct Progress {
    pub(crate) machine: Machine,
    pub(crate) steps: u64,
}

// The next step of the machine.
pub(crate) fn take_step(machine: &mut Machine, setting: &Setting<'_>) -> Result<Reached, NoMemory>
    requires { ArePlaced setting.now.board.now machine.old.frames }
    ensures reached { IfOk result (λ reached. Reaches
        (step setting.now.request.now (log_of setting.now.board.now) (shown_machine setting.now.board.now machine.old))
        (shown_machine setting.now.board.now machine.old) (shown_machine setting.now.board.now machine.new) reached) }
    ensures last { IfOk result (λ reached. Remembers setting.now.board.now (tried_in setting.now.request.now (shown_frames setting.now.board.now machine.old.frames)) machine.old machine.new reached) }
    ensures placed { OnOk result (ArePlaced setting.now.board.now machine.new.frames) }
{
    let Some(frame) = machine.frames.pop() else {
        return Ok(Reached::End);
    };
    let Some(template) = setting.board.prepared(frame.slot) else {
        unreachable!()
    };
    let Form::Planned(plan) = template.form() else {
        unreachable!()
    };
    // For the clauses: with the plan's length the prover knows that no place in the plan overflows.
    let _ = plan.len();
    match plan.step(frame.at) {
        Some(step) => {
            let reached = run(machine, setting, template, frame, step)?;
            Ok(reached)
        }
        None => {
            machine.frames.push(frame)?;
            Ok(Reached::End)
        }
    }
}

// The next step, counted if it is made.
fn take_counted(progress: &mut Progress, setting: &Setting<'_>) -> Result<Reached, NoMemory>
    requires placed { ArePlaced setting.now.board.now progress.old.machine.frames }
    requires ready { Ready progress.old.machine.failed (shown_frames setting.now.board.now progress.old.machine.frames) }
    ensures stands { OnOk result ((first : spec.Machine) → StandsAt setting.now.request.now setting.now.board.now first progress.old → StandsAt setting.now.request.now setting.now.board.now first progress.new) }
    ensures fails { OnOk result ((first : spec.Machine) → StandsAt setting.now.request.now setting.now.board.now first progress.old → FailsAt setting.now.request.now setting.now.board.now first progress.old.machine → FailsAt setting.now.request.now setting.now.board.now first progress.new.machine) }
    ensures told { IfOk result (λ reached. Told (step setting.now.request.now (log_of setting.now.board.now) (shown_machine setting.now.board.now progress.new.machine)) reached) }
    ensures falls { IfOk result (λ reached. IfWent reached (Falls progress.old.machine.legs (weight (shown_frames setting.now.board.now progress.old.machine.frames)) (shown_machine setting.now.board.now progress.new.machine))) }
    ensures placed { OnOk result (ArePlaced setting.now.board.now progress.new.machine.frames) }
    ensures ready { OnOk result (Ready progress.new.machine.failed (shown_frames setting.now.board.now progress.new.machine.frames)) }
{
    match take_step(&mut progress.machine, setting)? {
        Reached::Went => {
            progress.steps = progress.steps.saturating_add(1);
            Ok(Reached::Went)
        }
        stop => Ok(stop),
    }
}

// Advances until the next leg is done.
fn run_to_leg(progress: &mut Progress, setting: &Setting<'_>) -> Result<Reached, NoMemory>
    requires placed { ArePlaced setting.now.board.now progress.old.machine.frames }
    requires ready { Ready progress.old.machine.failed (shown_frames setting.now.board.now progress.old.machine.frames) }
    ensures stands { OnOk result ((first : spec.Machine) → StandsAt setting.now.request.now setting.now.board.now first progress.old → StandsAt setting.now.request.now setting.now.board.now first progress.new) }
    ensures fails { OnOk result ((first : spec.Machine) → StandsAt setting.now.request.now setting.now.board.now first progress.old → FailsAt setting.now.request.now setting.now.board.now first progress.old.machine → FailsAt setting.now.request.now setting.now.board.now first progress.new.machine) }
    ensures told { IfOk result (λ reached. Told (step setting.now.request.now (log_of setting.now.board.now) (shown_machine setting.now.board.now progress.new.machine)) reached) }
    ensures further { IfOk result (λ reached. IfWent reached ((progress.new.machine.legs ≡ progress.old.machine.legs + 1) × (progress.new.machine.legs ≤ most_legs))) }
    ensures placed { OnOk result (ArePlaced setting.now.board.now progress.new.machine.frames) }
    ensures ready { OnOk result (Ready progress.new.machine.failed (shown_frames setting.now.board.now progress.new.machine.frames)) }
{
    let before = progress.machine.legs;
    loop {
        match take_counted(progress, setting)? {
            Reached::Went => {
                if progress.machine.legs != before {
                    return Ok(Reached::Went);
                }
            }
            stop => return Ok(stop),
        }
    }
}

// Advances to where the page waits or is done.
pub(crate) fn advance(progress: &mut Progress, setting: &Setting<'_>) -> Result<Reached, NoMemory>
    requires placed { ArePlaced setting.now.board.now progress.old.machine.frames }
    requires ready { Ready progress.old.machine.failed (shown_frames setting.now.board.now progress.old.machine.frames) }
    ensures stands { OnOk result ((first : spec.Machine) → StandsAt setting.now.request.now setting.now.board.now first progress.old → StandsAt setting.now.request.now setting.now.board.now first progress.new) }
    ensures fails { OnOk result ((first : spec.Machine) → StandsAt setting.now.request.now setting.now.board.now first progress.old → FailsAt setting.now.request.now setting.now.board.now first progress.old.machine → FailsAt setting.now.request.now setting.now.board.now first progress.new.machine) }
    ensures told { IfOk result (λ reached. Told (step setting.now.request.now (log_of setting.now.board.now) (shown_machine setting.now.board.now progress.new.machine)) reached) }
    ensures stops { IfOk result (λ reached. Stops reached) }
    ensures placed { OnOk result (ArePlaced setting.now.board.now progress.new.machine.frames) }
    ensures ready { OnOk result (Ready progress.new.machine.failed (shown_frames setting.now.board.now progress.new.machine.frames)) }
{
    loop {
        match run_to_leg(progress, setting)? {
            Reached::Went => {}
            stop => return Ok(stop),
        }
    }
}
