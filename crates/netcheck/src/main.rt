// Reads a network file named on the command line, and prints what it holds or why it is refused.
#![tactic(auto)]

ghost use Rattle.std.specs.Prelude.{◌≡◌, Ok, Err, MatchResult};
ghost use Rattle.netfile.specs.Meaning.{meaning};
ghost use Rattle.network.specs.View.{view};

use faults::fault::Fault;
use netfile::file::read;
use network::network::Network;
use network::pipe::Pipe;
use std::process::ExitCode;
use std::{env, fs, io};

// The network that the file means, in place of the one given, or the fault for which it is refused.
fn load(mut network: Network, file: &[u8]) -> Result<Network, Fault>
    ensures { MatchResult result (λ loaded. meaning file.now ≡ Ok (view loaded)) (λ fault. meaning file.now ≡ Err fault) }
{
    read(file, &mut network)?;
    Ok(network)
}

fn print_network(rt: &impl Print, network: &Network) -> io::Result<()> {
    let weights = network.weights();
    let pipes = network.pipes();
    println!(rt; "nodes {}, pipes {}", weights.len(), pipes.len())?;
    for (node, weight) in weights.iter().enumerate() {
        println!(rt; "node {node}: weight {weight}")?;
    }
    for (number, pipe) in pipes.iter().enumerate() {
        let Pipe {
            first,
            second,
            cost,
        } = *pipe;
        println!(rt; "pipe {number}: nodes {first} and {second}, cost {cost}")?;
    }
    Ok(())
}

fn check(rt: &HostRuntime, path: &str) -> anyhow::Result<()> {
    let file = fs::read(rt, path)?;
    let network = load(Network::new(rt.alloc())?, file.as_slice())?;
    print_network(rt, &network)?;
    Ok(())
}

fn help(rt: &impl Print) -> io::Result<()> {
    println!(rt; "usage: netcheck FILE")?;
    println!(rt; "Prints the nodes and the pipes of the network file,")?;
    println!(rt; "or why it is refused, and then ends with status 1.")
}

// Checks the file of this name. Why it is refused, or cannot be read, goes to standard error.
fn report(rt: &HostRuntime, path: &str) -> io::Result<ExitCode> {
    match check(rt, path) {
        Ok(()) => Ok(ExitCode::SUCCESS),
        Err(error) => {
            eprintln!(rt; "netcheck: {path}: {error}")?;
            Ok(ExitCode::FAILURE)
        }
    }
}

fn run(rt: &HostRuntime) -> anyhow::Result<ExitCode> {
    let mut args = env::args(rt)?;
    let named = args.nth(1);
    let more = args.next();
    match named {
        Some(word) if word.as_str() == "--help" || word.as_str() == "-h" => {
            help(rt)?;
            Ok(ExitCode::SUCCESS)
        }
        Some(path) if more.is_none() => Ok(report(rt, path.as_str())?),
        _ => {
            eprintln!(rt; "netcheck: name one file; netcheck --help says more")?;
            Ok(ExitCode::FAILURE)
        }
    }
}

// An error that is left here is one of printing or of the arguments, and goes unsaid.
fn main(rt: HostRuntime) -> ExitCode {
    run(&rt).unwrap_or(ExitCode::FAILURE)
}
