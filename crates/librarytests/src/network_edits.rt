// The limits at their edges, the order of refusals, and the scores of a board worked by hand.
use faults::fault::Fault;
use faults::layer::Layer;
use faults::refusal::Refusal;
use network::network::Network;
use std::alloc::Global;
use std::process::Abort;
use std::test::Fail;

// What a call of the network that refuses for this reason answers.
fn refused<T>(refusal: Refusal) -> Result<T, Fault> {
    Err(Fault::of(Layer::Board, refusal))
}

// A network of so many nodes of weight 1, and so many pipes of cost 1 between the first two.
fn joined(rt: &impl Abort, heap: Global, nodes: usize, pipes: usize) -> Result<Network, Fail> {
    let mut network = Network::new(heap)?;
    for v in 0..nodes {
        assert_eq!(rt; network.add_node(1), Ok(v));
    }
    for p in 0..pipes {
        assert_eq!(rt; network.join(0, 1, 1), Ok(p));
    }
    Ok(network)
}

#[test]
fn weights_and_costs_at_their_limits(rt: HostRuntime) -> Result<(), Fail> {
    let mut network = joined(&rt, rt.alloc(), 1, 0)?;
    assert_eq!(rt; network.add_node(4_000), Ok(1));
    assert_eq!(rt; network.add_node(4_001), refused(Refusal::WeightOutOfRange));
    assert_eq!(rt; network.add_node(0), refused(Refusal::WeightOutOfRange));
    assert_eq!(rt; network.join(0, 1, 40_000), Ok(0));
    assert_eq!(rt;
        network.join(0, 1, 40_001),
        refused(Refusal::CostOutOfRange)
    );
    assert_eq!(rt; network.join(0, 1, 0), refused(Refusal::CostOutOfRange));
    Ok(())
}

#[test]
fn a_full_network_is_refused_first(rt: HostRuntime) -> Result<(), Fail> {
    let full = refused(Refusal::TooManyNodesOrPipes);
    let mut network = joined(&rt, rt.alloc(), 128, 512)?;
    assert_eq!(rt; network.add_node(1), full);
    assert_eq!(rt; network.add_node(4_001), full);
    assert_eq!(rt; network.join(0, 1, 1), full);
    assert_eq!(rt; network.join(0, 200, 0), full);
    Ok(())
}

#[test]
fn a_weight_is_tested_before_its_node(rt: HostRuntime) -> Result<(), Fail> {
    let mut network = joined(&rt, rt.alloc(), 1, 0)?;
    assert_eq!(rt; network.weigh(7, 4_001), refused(Refusal::WeightOutOfRange));
    assert_eq!(rt; network.weigh(7, 4_000), refused(Refusal::BadNodeOrPipe));
    assert_eq!(rt; network.join(0, 0, 40_001), refused(Refusal::BadNodeOrPipe));
    Ok(())
}

#[test]
fn a_removed_pipe_lowers_later_numbers(rt: HostRuntime) -> Result<(), Fail> {
    let mut network = joined(&rt, rt.alloc(), 3, 0)?;
    assert_eq!(rt; network.join(0, 1, 5), Ok(0));
    assert_eq!(rt; network.join(1, 2, 7), Ok(1));
    assert_eq!(rt; network.remove(0), Ok(()));
    assert_eq!(rt; network.pipes().len(), 1);
    assert_eq!(rt; network.boundary(&[0, 0, 1]), Ok(7));
    assert_eq!(rt; network.remove(1), refused(Refusal::BadNodeOrPipe));
    Ok(())
}

#[test]
fn marks_that_do_not_fit_name_their_place(rt: HostRuntime) -> Result<(), Fail> {
    let network = joined(&rt, rt.alloc(), 3, 0)?;
    assert_eq!(rt;
        network.weight(&[1, 0]),
        Err(Fault::of(Layer::Board, Refusal::BadMarks).at(2))
    );
    assert_eq!(rt;
        network.quotient(&[1, 2, 3]),
        Err(Fault::of(Layer::Board, Refusal::BadMarks).at(1))
    );
    Ok(())
}

#[test]
fn scores_of_two_triangles(rt: HostRuntime) -> Result<(), Fail> {
    let mut network = joined(&rt, rt.alloc(), 6, 0)?;
    let pipes = [
        (0, 1, 3),
        (1, 2, 3),
        (0, 2, 3),
        (3, 4, 3),
        (4, 5, 3),
        (3, 5, 3),
        (2, 3, 1),
    ];
    for (first, second, cost) in pipes {
        assert!(rt; network.join(first, second, cost).is_ok());
    }
    let proposal = [1, 1, 0, 0, 0, 0];
    assert_eq!(rt; network.relative(&proposal, &proposal), Ok((6, 8)));
    assert_eq!(rt;
        network.relative(&proposal, &[1, 1, 1, 0, 0, 0]),
        Ok((1, 6))
    );
    assert_eq!(rt;
        network.relative(&proposal, &[0, 0, 1, 1, 1, 1]),
        Ok((6, -8))
    );
    assert_eq!(rt; network.quotient(&[1, 1, 1, 0, 0, 0]), Ok((1, 3)));
    Ok(())
}
