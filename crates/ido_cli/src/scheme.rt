//! How programs log that commands compile.
ghost use Rattle.std.specs.Prelude.{◌≡◌};
ghost use Rattle.ido_cli.specs.Schemes.{log_by};

use command_words::scheme::SchemeName;
use log_schemes::log::Log;

/// How the threads of programs log that commands compile which take no scheme.
pub const COMMAND_LOG: Log = Log::V2;

/// How the threads of programs log that commands compile by a scheme.
pub fn log_by(scheme: SchemeName) -> Log
    ensures { result ≡ log_by scheme }
{
    match scheme {
        SchemeName::Ido => Log::V2,
        SchemeName::Justdo => Log::Justdo,
    }
}
