//! The rules of a run as the search sees them.
ghost use Rattle.std.specs.Prelude.{◌≡◌, ◌<◌, ◌≤◌, length};

use drive_rules::Rules;
use force_table::{ForceTable, SpeedTable};
use speed_envelopes::Ranges;
use speed_windows::{Course, Goal, Scale, StepShape};
use std::alloc::{AllocError, Global};
use step_energy::StepRow;

/// The shape of a step, from the work that it asks for.
fn shape_of(row: &StepRow) -> StepShape {
    let base = row.up(0) as i64;
    let at_one = (row.up(1) as i64).wrapping_sub(base);
    let at_two = (row.up(2) as i64).wrapping_sub(base);
    let rise = at_two.wrapping_sub(at_one).wrapping_sub(at_one) / 2;
    StepShape {
        length: row.metres() as u32,
        rise,
        slope: at_one.wrapping_sub(rise),
        base,
        fall: row.down(1) as i64,
    }
}

/// The shapes of the steps.
fn shapes_of(alloc: Global, rules: &Rules) -> Result<Vec<StepShape>, AllocError> {
    let mut shapes = Vec::with_capacity(alloc, rules.steps())?;
    for i in 0..rules.steps() {
        shapes.push(shape_of(rules.row(i)))?;
    }
    Ok(shapes)
}

/// Per step the index of the timing point behind it.
fn stretches_of(alloc: Global, rules: &Rules) -> Result<Vec<u8>, AllocError> {
    let mut stretches = Vec::with_capacity(alloc, rules.steps())?;
    let mut goal: u8 = 0;
    for i in 0..rules.steps() {
        if let Some(timing) = rules.timings().get(goal as usize) {
            if timing.point as usize <= i {
                goal = goal.saturating_add(1);
            }
        }
        stretches.push(goal)?;
    }
    Ok(stretches)
}

/// The timing points, with what is left of their latest times for driving.
fn goals_of(alloc: Global, rules: &Rules) -> Result<Vec<Goal>, AllocError> {
    let timings = rules.timings();
    let mut goals = Vec::with_capacity(alloc, timings.len())?;
    for k in 0..timings.len() {
        goals.push(Goal {
            point: timings[k].point as usize,
            latest: rules.slack(k),
        })?;
    }
    Ok(goals)
}

/// The work of each force of a table over 1 m, in 0.5 microjoule.
fn works_of(alloc: Global, table: &ForceTable) -> Result<Vec<i64>, AllocError> {
    let mut works = Vec::with_capacity(alloc, table.top() as usize + 1)?;
    for speed in 0..table.top() + 1 {
        works.push(2_000_000 * table.at(speed) as i64)?;
    }
    Ok(works)
}

/// The rules as the search sees them, between the least and the greatest drive, with energies as they are.
pub(crate) fn course_of(
    alloc: Global,
    rules: &Rules,
    ranges: &Ranges,
) -> Result<Course, AllocError> {
    let low = ranges.least(alloc)?;
    let high = ranges.greatest(alloc)?;
    Ok(Course {
        steps: shapes_of(alloc, rules)?,
        low: Vec::from_slice(alloc, low.speeds())?,
        high: Vec::from_slice(alloc, high.speeds())?,
        stretch: stretches_of(alloc, rules)?,
        goals: goals_of(alloc, rules)?,
        pull: works_of(alloc, rules.traction())?,
        hold: works_of(alloc, rules.brake())?,
        scale: Scale { left: 0, right: 0 },
        most_time: 1 << 60,
    })
}
