// What a plan in memory has, by number. A number that names nothing gives the zero thing, so that no look-up asks anything of its caller.
ghost use Rattle.std.specs.Prelude.{◌≡◌, length, get_or, ◌≤◌};
ghost use Rattle.rules.specs.Limits.{most_modules, most_modes, most_tasks, most_invocations, most_connections};
ghost use Rattle.rules.specs.Plan as rules;
ghost use Rattle.plan.specs.Memory.{seen, module_laid, mode_laid, task_laid, invocation_laid};

use crate::{Connection, Invocation, Mode, Module, Plan, Task};
use places::entry_or;
use units::{ModeNo, ModuleNo, TaskNo};

// Of the things that are counted, as many as have a place.
pub fn module_count(p: Plan) -> usize
    ensures { (result ≡ length (seen p).modules) × (result ≤ most_modules) }
{
    p.counts[usize::from(fields::module::KIND)].min(ModuleNo::MOST)
}

pub fn mode_count(p: Plan) -> usize
    ensures { (result ≡ length (seen p).modes) × (result ≤ most_modes) }
{
    p.counts[usize::from(fields::mode::KIND)].min(ModeNo::MOST)
}

pub fn task_count(p: Plan) -> usize
    ensures { (result ≡ length (seen p).tasks) × (result ≤ most_tasks) }
{
    p.counts[usize::from(fields::task::KIND)].min(TaskNo::MOST)
}

pub fn invocation_count(p: Plan) -> usize
    ensures { (result ≡ length (seen p).invocations) × (result ≤ most_invocations) }
{
    p.counts[usize::from(fields::invocation::KIND)].min(Invocation::MOST)
}

pub fn connection_count(p: Plan) -> usize
    ensures { (result ≡ length (seen p).connections) × (result ≤ most_connections) }
{
    p.counts[usize::from(fields::connection::KIND)].min(Connection::MOST)
}

pub fn module_at(p: Plan, k: usize) -> Module
    ensures { result ≡ module_laid (get_or (seen p).modules k 0) }
{
    entry_or(&p.modules[..module_count(p)], k, Module::default())
}

pub fn mode_at(p: Plan, k: usize) -> Mode
    ensures { result ≡ mode_laid (rules.the_mode (seen p) k) }
{
    entry_or(&p.modes[..mode_count(p)], k, Mode::default())
}

pub fn task_at(p: Plan, k: usize) -> Task
    ensures { result ≡ task_laid (rules.the_task (seen p) k) }
{
    entry_or(&p.tasks[..task_count(p)], k, Task::default())
}

pub fn invocation_at(p: Plan, k: usize) -> Invocation
    ensures { result ≡ invocation_laid (rules.the_invocation (seen p) k) }
{
    entry_or(
        &p.invocations[..invocation_count(p)],
        k,
        Invocation::default(),
    )
}
