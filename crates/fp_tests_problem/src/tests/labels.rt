//! Least distances over four nodes.
ghost use Rattle.std.specs.Prelude.{◌≡◌, ◌≤◌, length, All};
ghost use Rattle.fp_labels.specs.Labels.{IsSmallFor};

use fp_labels::{Edge, Graph, NoMemory, distances, tagged_distance, through_edges};
use std::alloc::Global;

// What leads from A over the edges A to B, B to C, A to C and B to A: the costs to A, B, C and to
// D, which has no edge, and the walk to C.
fn from_a(alloc: Global, costs: &[Option<u128>]) -> Result<([Option<u128>; 4], Vec<u32>), NoMemory>
    requires len { length costs.now ≡ 4 }
    requires small { All (IsSmallFor 4) costs.now }
{
    let edges = [
        Edge { from: 0, to: 1 },
        Edge { from: 1, to: 2 },
        Edge { from: 0, to: 2 },
        Edge { from: 1, to: 0 },
    ];
    let graph = Graph::new(alloc, 4, &edges)?;
    let labels = distances(alloc, &graph, costs, 0)?;
    let walk = match labels.to(2) {
        None => Vec::new(alloc),
        Some(_) => labels.walk(alloc, 2)?,
    };
    let costs = [labels.to(0), labels.to(1), labels.to(2), labels.to(3)];
    Ok((costs, walk))
}

#[test]
fn three_nodes_and_one_alone(rt: HostRuntime) {
    let alloc = rt.alloc();

    let (costs, walk) = from_a(alloc, &[Some(4), Some(5), None, None]).expect(&rt, "memory");
    assert!(rt; costs == [Some(0), Some(4), Some(9), None]);
    assert!(rt; walk.as_slice() == [0, 1].as_slice());

    let (costs, walk) = from_a(alloc, &[Some(4), Some(5), Some(9), None]).expect(&rt, "memory");
    assert!(rt; costs == [Some(0), Some(4), Some(9), None]);
    assert!(rt; walk.as_slice() == [0, 1].as_slice() || walk.as_slice() == [2].as_slice());

    let (costs, walk) = from_a(alloc, &[None, Some(5), Some(9), None]).expect(&rt, "memory");
    assert!(rt; costs == [Some(0), None, Some(9), None]);
    assert!(rt; walk.as_slice() == [2].as_slice());

    // A cycle of cost 0.
    let (costs, walk) = from_a(alloc, &[Some(0), Some(5), Some(9), Some(0)]).expect(&rt, "memory");
    assert!(rt; costs == [Some(0), Some(0), Some(5), None]);
    assert!(rt; walk.as_slice() == [0, 1].as_slice());

    // The greatest cost that is allowed.
    let most = 42535295865117307932921825928971026431;
    let (costs, _) = from_a(alloc, &[Some(most), Some(most), None, None]).expect(&rt, "memory");
    assert!(rt; costs == [Some(0), Some(most), Some(most * 2), None]);
}

// The least cost from A to C over the same edges, which cost 4, 5, 9 and 1, of a walk that has these
// tags: A to B has the tag 7, A to C the tag 8, B to A the tag 9, and B to C none.
fn tagged(alloc: Global, wanted: &[u32]) -> Result<Option<u128>, NoMemory>
    requires few { length wanted.now ≤ 3 }
{
    let edges = [
        Edge { from: 0, to: 1 },
        Edge { from: 1, to: 2 },
        Edge { from: 0, to: 2 },
        Edge { from: 1, to: 0 },
    ];
    let graph = Graph::new(alloc, 4, &edges)?;
    let costs = [Some(4), Some(5), Some(9), Some(1)];
    let tags = [Some(7), None, Some(8), Some(9)];
    tagged_distance(alloc, &graph, &costs, &tags, wanted, 0, 2)
}

#[test]
fn walks_with_tags(rt: HostRuntime) {
    let alloc = rt.alloc();
    assert!(rt; tagged(alloc, &[]).expect(&rt, "memory") == Some(9));
    assert!(rt; tagged(alloc, &[7]).expect(&rt, "memory") == Some(9));
    // Round the cycle of A and B, and on by B or by the edge from A to C.
    assert!(rt; tagged(alloc, &[9]).expect(&rt, "memory") == Some(14));
    assert!(rt; tagged(alloc, &[8, 7]).expect(&rt, "memory") == Some(14));
    assert!(rt; tagged(alloc, &[7, 7]).expect(&rt, "memory") == Some(9));
    assert!(rt; tagged(alloc, &[6]).expect(&rt, "memory") == None);
}

// For each of the same edges the least cost of a walk from A to C that has it.
fn through(alloc: Global, costs: &[Option<u128>]) -> Result<Vec<Option<u128>>, NoMemory>
    requires len { length costs.now ≡ 4 }
    requires small { All (IsSmallFor 8) costs.now }
{
    let edges = [
        Edge { from: 0, to: 1 },
        Edge { from: 1, to: 2 },
        Edge { from: 0, to: 2 },
        Edge { from: 1, to: 0 },
    ];
    let graph = Graph::new(alloc, 4, &edges)?;
    through_edges(alloc, &graph, costs, 0, 2)
}

#[test]
fn walks_through_each_edge(rt: HostRuntime) {
    let alloc = rt.alloc();

    // In a row for 9, straight for 12, and round the cycle of A and B before.
    let costs = through(alloc, &[Some(4), Some(5), Some(12), Some(1)]).expect(&rt, "memory");
    assert!(rt; costs.as_slice() == [Some(9), Some(9), Some(12), Some(14)].as_slice());

    // Without the edge from B to C a walk comes back from B.
    let costs = through(alloc, &[Some(4), None, Some(9), Some(1)]).expect(&rt, "memory");
    assert!(rt; costs.as_slice() == [Some(14), None, Some(9), Some(14)].as_slice());

    // Without the edge from A to B no walk comes to B.
    let costs = through(alloc, &[None, Some(5), Some(9), Some(1)]).expect(&rt, "memory");
    assert!(rt; costs.as_slice() == [None, None, Some(9), None].as_slice());

    // A cycle of cost 0.
    let costs = through(alloc, &[Some(0), Some(5), Some(9), Some(0)]).expect(&rt, "memory");
    assert!(rt; costs.as_slice() == [Some(5), Some(5), Some(9), Some(5)].as_slice());

    // The greatest cost that is allowed.
    let most = 21267647932558653966460912964485513215;
    let costs = through(alloc, &[Some(most), Some(most), None, None]).expect(&rt, "memory");
    assert!(rt; costs.as_slice() == [Some(most * 2), Some(most * 2), None, None].as_slice());
}
