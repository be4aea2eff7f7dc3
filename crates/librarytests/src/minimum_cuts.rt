// The memory of the path solver and of its parts can be had, and a new solver marks the cut of a line worked by hand.
use mincut::flow::{FlowNetwork, FlowPipe};
use mincut::solver::MinCut;
use pathsolver::solver::PathSolver;
use residual::graph::ResidualGraph;
use residual::marking::Marker;
use std::process::Abort;
use std::test::Fail;

// A pipe of capacity 4.
fn pipe(first: usize, second: usize) -> FlowPipe {
    FlowPipe {
        first,
        second,
        cost: 4,
    }
}

#[test]
fn the_memory_of_a_solver_is_to_be_had(rt: HostRuntime) -> Result<(), Fail> {
    assert!(rt; ResidualGraph::new(rt.alloc()).is_ok());
    assert!(rt; Marker::new(rt.alloc()).is_ok());
    assert!(rt; PathSolver::new(rt.alloc()).is_ok());
    Ok(())
}

#[test]
fn a_new_solver_marks_the_smaller_cut_of_a_line(rt: HostRuntime) -> Result<(), Fail> {
    let mut solver = PathSolver::new(rt.alloc())?;
    let pipes = [pipe(0, 1), pipe(1, 2), pipe(2, 3)];
    let line = FlowNetwork {
        nodes: 4,
        sources: &[6, 0, 6, 0],
        sinks: &[0, 6, 0, 6],
        pipes: &pipes,
    };
    let mut marks = [9; 4];
    assert_eq!(rt; solver.cut(line, &mut marks), Ok(10));
    assert_eq!(rt; &marks, &[1, 0, 0, 0]);
    Ok(())
}
