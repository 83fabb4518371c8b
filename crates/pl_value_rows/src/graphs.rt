use pl_graph::Graph;
use std::alloc::Global;
use std::process::Abort;
use std::test::Fail;

// A graph of these edges, the digits of whose rows are written one behind the other, as `10 21`.
fn graph_of(alloc: Global, rows: u64, edges: &str) -> Result<Graph, Fail> {
    let mut graph = Graph::new(alloc, rows)?;
    for edge in edges.split_whitespace() {
        let number = edge.parse::<u64>().ok().ok_or("no edge")?;
        let (from, to) = (number / 10, number % 10);
        if from < graph.rows() && to < graph.rows() {
            graph.add_edge(from, to)?;
        }
    }
    Ok(graph)
}

#[test]
fn first_edge_out_of_order(rt: HostRuntime) -> Result<(), Fail> {
    for (rows, edges, want) in [
        (0, "", None),
        (3, "", None),
        (3, "10 21 20 10", None),
        (3, "11", Some((1, 1))),
        (3, "12", Some((1, 2))),
        (4, "33 10 12", Some((1, 2))),
        (4, "10 13 11 12", Some((1, 3))),
        (4, "30 23 22", Some((2, 3))),
    ] {
        let graph = graph_of(rt.alloc(), rows, edges)?;
        assert!(rt; graph.in_order() == want, "at {edges}");
    }
    Ok(())
}

// Each row's number and a blank.
fn shown(alloc: Global, rows: &[u64]) -> Result<String, Fail> {
    let mut text = String::new(alloc);
    for row in rows {
        text.push_str(format!(in alloc; "{row} ")?.as_str())?;
    }
    Ok(text)
}

#[test]
fn rows_that_refer_and_reach(rt: HostRuntime) -> Result<(), Fail> {
    for (edges, row, dependents, closure) in [
        ("", 0, "", ""),
        ("10 21 32", 0, "1 ", "1 2 3 "),
        ("10 21 32", 1, "2 ", "2 3 "),
        ("10 21 32", 3, "", ""),
        ("10 21 32", 7, "", ""),
        ("30 10 30 20 21", 0, "1 2 3 ", "1 2 3 "),
        ("41 32 20 43", 0, "2 ", "2 3 4 "),
        ("41 32 20 43", 1, "4 ", "4 "),
        ("10 31 32 43", 2, "3 ", "3 4 "),
    ] {
        let graph = graph_of(rt.alloc(), 5, edges)?;
        let found = graph.dependents_of(rt.alloc(), row)?;
        assert_eq!(rt;
            shown(rt.alloc(), found.as_slice())?.as_str(),
            dependents,
            "{row} of {edges}"
        );
        if graph.in_order().is_none() {
            let found = graph.closure(rt.alloc(), row)?;
            assert_eq!(rt;
                shown(rt.alloc(), found.as_slice())?.as_str(),
                closure,
                "{row} of {edges}"
            );
        } else {
            return Err("out of order".into());
        }
    }
    Ok(())
}
