// The worked file, each refusal with its place, and buffers of several lengths.
use faults::fault::Fault;
use faults::layer::Layer;
use faults::refusal::Refusal;
use netfile::file::{read, write};
use network::network::Network;
use std::alloc::Global;
use std::process::Abort;
use std::test::Fail;

// Two nodes of weight 1, and a pipe of cost 5 between them.
const PAIR: [u8; 16] = [0x44, 0x5A, 0x4E, 0, 1, 2, 0, 1, 0, 1, 0, 1, 0, 1, 0, 5];

// A network of one node of weight 7.
fn single(rt: &impl Abort, heap: Global) -> Result<Network, Fail> {
    let mut network = Network::new(heap)?;
    assert_eq!(rt; network.add_node(7), Ok(0));
    Ok(network)
}

#[test]
fn the_worked_file_loads_and_is_written_back(rt: HostRuntime) -> Result<(), Fail> {
    let mut network = single(&rt, rt.alloc())?;
    assert_eq!(rt; read(&PAIR, &mut network), Ok(()));
    assert_eq!(rt; network.weights(), [1, 1].as_slice());
    assert_eq!(rt; network.pipes().len(), 1);
    assert_eq!(rt; network.boundary(&[1, 0]), Ok(5));
    let mut out = [9; 18];
    assert_eq!(rt; write(&network, &mut out), Ok(16));
    assert_eq!(rt; &out[..16], PAIR.as_slice());
    assert_eq!(rt; &out[16..], [9, 9].as_slice());
    Ok(())
}

#[test]
fn a_cut_file_is_refused_and_the_network_stays(rt: HostRuntime) -> Result<(), Fail> {
    let mut network = single(&rt, rt.alloc())?;
    for size in 0..16 {
        let refusal = if size < 8 {
            Refusal::NotANetworkFile
        } else {
            Refusal::WrongFileLength
        };
        let fault = Fault::of(Layer::File, refusal).at(size);
        assert_eq!(rt; read(&PAIR[..size], &mut network), Err(fault));
        assert_eq!(rt; network.weights(), [7].as_slice());
    }
    Ok(())
}

#[test]
fn a_changed_byte_is_refused_at_its_place(rt: HostRuntime) -> Result<(), Fail> {
    let mut network = single(&rt, rt.alloc())?;
    let changes = [
        (0, 0x64, Refusal::NotANetworkFile, 0),
        (1, 0x5B, Refusal::NotANetworkFile, 1),
        (2, 0x4D, Refusal::NotANetworkFile, 2),
        (3, 1, Refusal::UnknownVersion, 3),
        (4, 2, Refusal::UnknownVersion, 3),
        (5, 129, Refusal::TooManyNodesOrPipes, 5),
        (6, 2, Refusal::TooManyNodesOrPipes, 6),
        (5, 128, Refusal::WrongFileLength, 16),
        (7, 0, Refusal::WrongFileLength, 12),
        (9, 0, Refusal::WeightOutOfRange, 8),
        (10, 0x10, Refusal::WeightOutOfRange, 10),
        (12, 2, Refusal::BadNodeOrPipe, 12),
        (13, 0, Refusal::BadNodeOrPipe, 12),
        (14, 0x9D, Refusal::CostOutOfRange, 12),
        (15, 0, Refusal::CostOutOfRange, 12),
    ];
    for (changed, byte, refusal, place) in changes {
        let mut file = PAIR;
        if let Some(slot) = file.get_mut(changed) {
            *slot = byte;
        }
        let fault = Fault::of(Layer::File, refusal).at(place);
        assert_eq!(rt; read(&file, &mut network), Err(fault));
    }
    Ok(())
}

#[test]
fn the_first_fault_is_reported(rt: HostRuntime) -> Result<(), Fail> {
    let mut network = single(&rt, rt.alloc())?;
    let both_weights = [0x44, 0x5A, 0x4E, 0, 1, 2, 0, 0, 0, 0, 0, 0];
    let ends_and_cost = [0x44, 0x5A, 0x4E, 0, 1, 1, 0, 1, 0, 1, 0, 0, 0, 0];
    let nodes_and_pipes = [0x44, 0x5A, 0x4E, 0, 1, 129, 2, 1];
    let cases = [
        (both_weights.as_slice(), Refusal::WeightOutOfRange, 8),
        (ends_and_cost.as_slice(), Refusal::BadNodeOrPipe, 10),
        (nodes_and_pipes.as_slice(), Refusal::TooManyNodesOrPipes, 5),
    ];
    for (file, refusal, place) in cases {
        let fault = Fault::of(Layer::File, refusal).at(place);
        assert_eq!(rt; read(file, &mut network), Err(fault));
    }
    Ok(())
}

#[test]
fn a_short_buffer_stays_as_it_was(rt: HostRuntime) -> Result<(), Fail> {
    let network = single(&rt, rt.alloc())?;
    let mut out = [9; 10];
    let fault = Fault::of(Layer::File, Refusal::BufferTooShort);
    assert_eq!(rt; write(&network, &mut out[..9]), Err(fault));
    assert_eq!(rt; &out, &[9; 10]);
    assert_eq!(rt; write(&network, &mut out), Ok(10));
    assert_eq!(rt; &out, &[0x44, 0x5A, 0x4E, 0, 1, 1, 0, 0, 0, 7]);
    Ok(())
}

#[test]
fn the_largest_network_makes_the_round_trip(rt: HostRuntime) -> Result<(), Fail> {
    let mut network = Network::new(rt.alloc())?;
    for v in 0..128 {
        assert_eq!(rt; network.add_node(4_000), Ok(v));
    }
    for p in 0..512 {
        assert_eq!(rt; network.join(127, p % 127, 40_000), Ok(p));
    }
    let mut out = [0; 2_312];
    assert_eq!(rt; write(&network, &mut out), Ok(2_312));
    let mut again = single(&rt, rt.alloc())?;
    assert_eq!(rt; read(&out, &mut again), Ok(()));
    assert_eq!(rt; again.weights(), network.weights());
    assert_eq!(rt; again.pipes().len(), 512);
    Ok(())
}
