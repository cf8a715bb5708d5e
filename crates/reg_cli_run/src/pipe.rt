//! Setting up a registry, and serving one stream.

ghost use Rattle.reg_http.specs.Serving.{MayServe};
ghost use Rattle.reg_cli_run.specs.Lines.{lines_in};
ghost use Rattle.reg_cli_run.specs.Piped.{Pipes, PipesTraced};

use crate::exit::{exit_of_setup, exit_of_stream};
use crate::setup::setup_traced;
use reg_body::Counted;
use reg_cli_line::Exit;
use reg_http::{Trail, serve_traced};
use reg_service::Registry;
use sqlite::Alter;
use std::alloc::Global;
use std::io::{self, Read, Write};

/// Runs the commands of the setup file and then serves the stream. If a line of the setup is
/// refused, or is no command, nothing is served.
pub fn run_pipe<R: Read, W: Write, S: Alter>(
    alloc: Global,
    registry: &mut Registry<S>,
    setup: &str,
    r: &mut Counted<R>,
    w: &mut Counted<W>,
) -> Exit
    requires { MayServe registry.old r.old w.old }
    ensures { Pipes S.Store (lines_in setup.now) R.remaining W.contents registry.old registry.new
        r.old r.new w.old w.new result }
{
    let mut silent = Trail::new(io::sink(), 0);
    pipe_traced(alloc, registry, setup, r, w, &mut silent)
}

/// Does as `run_pipe`, and writes a line for each change: after its commit, and before its reply.
pub fn pipe_traced<R: Read, W: Write, T: Write, S: Alter>(
    alloc: Global,
    registry: &mut Registry<S>,
    setup: &str,
    r: &mut Counted<R>,
    w: &mut Counted<W>,
    trail: &mut Trail<T>,
) -> Exit
    requires { MayServe registry.old r.old w.old }
    ensures { PipesTraced S.Store (lines_in setup.now) R.remaining W.contents registry.old
        registry.new r.old r.new w.old w.new T.contents trail.old trail.new result }
{
    if let Err(fault) = setup_traced(alloc, registry, setup, trail) {
        return exit_of_setup(fault);
    }
    exit_of_stream(serve_traced(alloc, registry, r, w, trail))
}
