//! The file of a service, of which the names of the calls are read too.

ghost use Rattle.std.specs.Prelude.{◌≡◌, ◌≢◌, Err, IfOk};
ghost use Rattle.line_file.specs.Shape.{IsService};
ghost use Rattle.sheet_run.specs.NamedServices.{named_service_of};

use command_files::FileRole;
use line_file::{NameList, Service, ServiceFault, read_names, read_service};
use plan_files::ServiceFile;
use std::alloc::{AllocError, Global};
use std::sync::ledger::Ledger;
use step_energy::Steps;

/// A service with the names of its calls, in their order.
#[derive(Drop)]
pub struct NamedService {
    /// The service.
    pub service: Service,
    /// The name of each call.
    pub names: NameList,
}

/// A service file of which the names are read too.
#[derive(Clone, Copy)]
pub struct NamedServiceFile;

/// Reads a service and the names of its calls.
fn read_named(alloc: Global, text: &[u8]) -> Result<NamedService, ServiceFault>
    ensures said { result ≢ Err ServiceFault.NoMemory → result ≡ named_service_of text.now }
    ensures shape { IfOk result (λ named. IsService named.service) }
{
    let service = read_service(alloc, text)?;
    let names = read_names(alloc, text)?;
    Ok(NamedService { service, names })
}

impl FileRole for NamedServiceFile {
    ghost use Rattle.line_file.specs.Shape.{IsService};
    ghost use Rattle.line_file.specs.declared.service.ServiceFault.TheVariants.{NoMemory};
    ghost use Rattle.sheet_run.specs.NamedServices.{named_service_kind};

    type Said = NamedService;

    type Fault = ServiceFault;

    ghost kind = { named_service_kind };

    ghost no_memory = { NoMemory };

    ghost shape = { λ named. IsService named.service };

    ghost steps_of = { λ _. 0 };

    fn role() -> &'static [u8] {
        b"service"
    }

    fn most() -> usize {
        ServiceFile::most()
    }

    fn read<L: Ledger>(
        alloc: Global,
        text: &[u8],
        _steps: &mut Steps<L>,
    ) -> Result<NamedService, ServiceFault> {
        read_named(alloc, text)
    }

    fn words(alloc: Global, fault: ServiceFault) -> Result<Vec<u8>, AllocError> {
        ServiceFile::words(alloc, fault)
    }
}
