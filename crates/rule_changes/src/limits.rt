//! The limits of the steps, set anew.

ghost use Rattle.line_file.specs.Shape.{IsLine};
ghost use Rattle.rule_parts.specs.Shaped.{rules_of, IsShaped};
ghost use Rattle.rule_changes.specs.Limits.{AreStretches, IsLimited, IsOnLine};

use joined_rules::{Stretch, set_step_limits};
use line_file::Line;
use rule_parts::Parts;

/// Sets each step's limit to the least of the line's sections and of the stretches that meet the train there, whatever the limits were
/// before, and leaves all else. It takes no memory.
pub fn set_limits(parts: &mut Parts, line: &Line, stretches: &[Stretch])
    requires shaped { IsShaped (rules_of parts.old) }
    requires line { IsLine line.now }
    requires stretches { AreStretches stretches.now }
    requires on_line { IsOnLine line.now (rules_of parts.old) }
    ensures limited { IsLimited line.now stretches.now (rules_of parts.old) (rules_of parts.new) }
    ensures shaped { IsShaped (rules_of parts.new) }
{
    set_step_limits(
        &mut parts.limits,
        line.limits.items(),
        stretches,
        parts.train_length,
        &parts.places,
    );
}
