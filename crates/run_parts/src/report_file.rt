//! The file of a report.

ghost use Rattle.std.specs.Prelude.{◌≡◌, ℕ, List, [], IfOk};

use command_files::FileRole;
use std::alloc::{AllocError, Global};
use std::marker::Model;
use std::sync::ledger::Ledger;
use step_energy::Steps;

/// The bytes of a report, at most.
const MOST_BYTES: usize = 8_388_608;

/// The text of a report, which contracts see as its bytes.
#[derive(Drop)]
pub struct ReportText {
    bytes: Vec<u8>,
}

impl Model for ReportText {
    ghost use Rattle.std.specs.Prelude.{ℕ, List};

    ghost Value = { List ℕ };

    ghost view = { λ r. r.bytes.items };
}

impl ReportText {
    /// The bytes.
    pub fn bytes(&self) -> &[u8]
        ensures { result.now ≡ self.now }
    {
        self.bytes.as_slice()
    }
}

/// Why a report isn't taken: only memory can be wanting, since whatever it says is for the checker to judge.
#[derive(Clone, Copy, PartialEq, Eq, Debug)]
pub enum ReportFault {
    /// The memory ran out.
    NoMemory,
}

/// A report's file.
#[derive(Clone, Copy)]
pub struct ReportFile;

impl FileRole for ReportFile {
    ghost use Rattle.std.specs.Prelude.{⊤};
    ghost use Rattle.run_parts.specs.declared.report_file.ReportFault.TheVariants.{NoMemory};
    ghost use Rattle.run_parts.specs.Reports.{report_kind};

    type Said = ReportText;

    type Fault = ReportFault;

    ghost kind = { report_kind };

    ghost no_memory = { NoMemory };

    ghost shape = { λ _. ⊤ };

    ghost steps_of = { λ _. 0 };

    fn role() -> &'static [u8] {
        b"report"
    }

    fn most() -> usize {
        MOST_BYTES
    }

    fn read<L: Ledger>(
        alloc: Global,
        text: &[u8],
        _steps: &mut Steps<L>,
    ) -> Result<ReportText, ReportFault> {
        match Vec::from_slice(alloc, text) {
            Ok(bytes) => Ok(ReportText { bytes }),
            Err(_) => Err(ReportFault::NoMemory),
        }
    }

    fn words(_alloc: Global, _fault: ReportFault) -> Result<Vec<u8>, AllocError> {
        Err(AllocError)
    }
}
