// What no clause says: that the calls succeed where there is memory, that every node is taken away that leads to no circle,
// and which node stands where in the order.
use lw_graph::{Graph, NodeSet};
use std::process::Abort;
use std::test::Fail;

struct Row {
    nodes: usize,
    edges: &'static [(usize, usize)],
    starts: &'static [usize],
    reached: &'static [usize],
    round: &'static [usize],
    ended: &'static [usize],
    order: &'static [usize],
}

const ROWS: [Row; 6] = [
    // no node
    Row {
        nodes: 0,
        edges: &[],
        starts: &[],
        reached: &[],
        round: &[],
        ended: &[],
        order: &[],
    },
    // a chain
    Row {
        nodes: 4,
        edges: &[(0, 1), (1, 2), (2, 3)],
        starts: &[1],
        reached: &[1, 2, 3],
        round: &[],
        ended: &[0, 1, 2, 3],
        order: &[3, 2, 1, 0],
    },
    // two ways to one node, and two edges that are the same
    Row {
        nodes: 5,
        edges: &[(3, 1), (3, 2), (2, 0), (1, 0), (3, 1)],
        starts: &[4, 1],
        reached: &[0, 1, 4],
        round: &[],
        ended: &[0, 1, 2, 3, 4],
        order: &[4, 0, 1, 2, 3],
    },
    // a circle of two
    Row {
        nodes: 2,
        edges: &[(0, 1), (1, 0)],
        starts: &[1],
        reached: &[0, 1],
        round: &[0, 1],
        ended: &[],
        order: &[0, 1],
    },
    // an edge from a node to itself
    Row {
        nodes: 3,
        edges: &[(1, 1), (0, 2)],
        starts: &[0, 1],
        reached: &[0, 1, 2],
        round: &[1],
        ended: &[0, 2],
        order: &[2, 1, 0],
    },
    // one node before a circle, and one behind it
    Row {
        nodes: 4,
        edges: &[(0, 1), (1, 2), (2, 1), (2, 3)],
        starts: &[2],
        reached: &[1, 2, 3],
        round: &[1, 2],
        ended: &[3],
        order: &[3, 1, 2, 0],
    },
];

fn put_edges(rt: &impl Abort, graph: &mut Graph, edges: &[(usize, usize)]) -> Result<(), Fail> {
    for (from, to) in edges {
        assert!(rt; *from < graph.nodes());
        assert!(rt; *to < graph.nodes());
        graph.add(*from, *to)?;
    }
    Ok(())
}

fn expect_nodes(rt: &impl Abort, set: &NodeSet, nodes: &[usize], row: usize) {
    for node in 0..6 {
        assert_eq!(rt;
            set.holds(node),
            nodes.contains(&node),
            "node {node} of row {row}"
        );
    }
}

#[test]
fn graphs_are_walked(rt: HostRuntime) -> Result<(), Fail> {
    let alloc = rt.alloc();
    for (number, row) in ROWS.iter().enumerate() {
        let mut graph = Graph::new(alloc, row.nodes)?;
        put_edges(&rt, &mut graph, row.edges)?;
        assert!(rt; row.starts.iter().all(|start| *start < graph.nodes()));
        expect_nodes(&rt, &graph.reached(alloc, row.starts)?, row.reached, number);
        expect_nodes(&rt, &graph.circles(alloc)?, row.round, number);
        assert_eq!(rt; graph.successors_first(alloc)?.as_slice(), row.order);
    }
    Ok(())
}
