//! Joined rules are fixed by what they are joined from.

ghost use Rattle.std.specs.Prelude.{◌≡◌};
ghost use Rattle.rail_specs.specs.Rules.{Rules};
ghost use Rattle.line_file.specs.declared.line.Line.{Line};
ghost use Rattle.line_file.specs.declared.service.Service.{Service};
ghost use Rattle.line_file.specs.Shape.{IsLine, IsService};
ghost use Rattle.train_file.specs.declared.train.Train.{Train};
ghost use Rattle.joined_rules.specs.declared.setup.Setup.{Setup};
ghost use Rattle.joined_rules.specs.Joined.{IsJoined};

/// Any two rules that a line, a train, a service and a setup give together are equal.
pub fn joined_rules_are_fixed()
    ensures { (line : Line) (train : Train) (service : Service) (setup : Setup) (r s : Rules) → IsLine line → IsService service → IsJoined line train service setup r → IsJoined line train service setup s → r ≡ s }
{}
