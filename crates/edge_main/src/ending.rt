//! How the program ends after serving.
ghost use Rattle.std.specs.Prelude.{◌≡◌};
ghost use Rattle.edge_main.specs.Ending.{serving_status};

use edge_commands::Status;
use edge_connections::ServeEnd;

/// The status of a server, by how it ended.
pub(crate) fn status_of_serving(ended: Result<ServeEnd, Status>) -> Status
    ensures { result ≡ serving_status ended }
{
    match ended {
        Ok(ServeEnd::Served) => Status::Served,
        Ok(ServeEnd::AcceptsFailed) => Status::InputOutput,
        Err(status) => status,
    }
}
