//! The data of a session and the rules that are kept with them.

ghost use Rattle.std.specs.Prelude.{◌≡◌, ◌+◌, ◌≤◌, length, IfOk, IfErr};
ghost use Rattle.line_file.specs.Shape.{IsLine, IsService};
ghost use Rattle.train_file.specs.Shape.{IsTrain};
ghost use Rattle.joined_rules.specs.Joined.{CountsRows, Refuses};
ghost use Rattle.advice_session.specs.Data.{AreRulesOf, IsSession, started};

use drive_rules::{Rules, RulesFault, Setup, Stretch};
use event_file::Name;
use line_file::{Line, Service};
use std::alloc::Global;
use std::marker::Model;
use std::sync::ledger::Ledger;
use step_energy::Steps;
use train_file::Train;

/// A train under way. Contracts see its data and its rules.
#[derive(Drop)]
pub struct Session {
    pub(crate) line: Line,
    pub(crate) train: Train,
    pub(crate) service: Service,
    /// The length of a step where nothing cuts it shorter, m.
    pub(crate) step: u16,
    /// The train's place, m.
    pub(crate) place: u32,
    /// The train's speed, cm/s.
    pub(crate) speed: u16,
    /// The clock of the service at the train's place, s.
    pub(crate) clock: u32,
    /// The names of the restrictions that stand.
    pub(crate) names: Vec<Name>,
    /// The stretches of these restrictions, in the same order.
    pub(crate) stretches: Vec<Stretch>,
    /// The rules of the data.
    pub(crate) rules: Rules,
}

impl Model for Session {
    ghost use Rattle.advice_session.specs.Data.{State, IsSession, state_of};

    ghost Value = { State };

    ghost view = { λ s. state_of s.line s.train s.service s.step s.place s.speed s.clock s.names.items s.stretches.items s.rules };

    ghost invariant = { λ s. IsSession (state_of s.line s.train s.service s.step s.place s.speed s.clock s.names.items s.stretches.items s.rules) };
}

impl Session {
    /// The session of a train that stands at the first call of a service, at the clock 0, without restrictions. It keeps copies of the line,
    /// the train and the service; `step`, 10 to 1,000 m, is the length of a step where nothing cuts it shorter. The refusals are those of
    /// `Rules::make`, and the counter shows one step for each row that is made.
    pub fn start<L: Ledger>(
        alloc: Global,
        line: &Line,
        train: &Train,
        service: &Service,
        step: u16,
        steps: &mut Steps<L>,
    ) -> Result<Session, RulesFault>
        requires line { IsLine line.now }
        requires train { IsTrain train.now }
        requires service { IsService service.now }
        requires step { (10 ≤ step) × (step ≤ 1000) }
        ensures started { IfOk result (λ s. s.data_is ≡ started line.now train.now service.now step) }
        ensures refused { IfErr result (Refuses line.now train.now service.now (started line.now train.now service.now step).setup) }
        ensures counted { IfOk result (λ s. steps.new ≡ steps.old + length s.rules_are.steps) }
        ensures made { CountsRows result line.now service.now (started line.now train.now service.now step).setup steps.old steps.new }
    {
        let own_line = line.copy(alloc)?;
        let own_train = train.copy(alloc)?;
        let own_service = service.copy(alloc)?;
        let setup = Setup::fresh(alloc, step, service);
        let rules = Rules::make(alloc, line, train, service, &setup, steps)?;
        Ok(Session {
            line: own_line,
            train: own_train,
            service: own_service,
            step,
            place: setup.place,
            speed: 0,
            clock: 0,
            names: Vec::new(alloc),
            stretches: Vec::new(alloc),
            rules,
        })
    }

    /// The rules of the session's data. It takes no memory.
    pub fn rules(&self) -> &Rules
        ensures value { result.now ≡ self.now.rules_are }
        ensures joined { AreRulesOf self.now.data_is result.now }
    {
        &self.rules
    }

    /// What holds of every session.
    pub fn known(&self)
        ensures { IsSession self.now }
    {
        let _ = &self.clock;
    }
}
