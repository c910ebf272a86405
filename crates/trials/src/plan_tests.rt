//! Plans: a node of each kind is accepted, and calls that take memory succeed once there is some.
use crate::sketches::{arrange, built, concat, filter, input, join, map, negate, reduce, view};
use plan::{Kind, Node, NodeId, Plan, PlanBuilder};
use row::{Cmp, Item};
use std::alloc::{AllocError, Global};
use std::test::Fail;
use update::Refusal;

// The nodes that pass rows on one by one.
fn linear(alloc: Global) -> Result<Plan, Refusal> {
    let column = Item::Column(1);
    built(
        alloc,
        &[
            input(2),
            filter(0, column, Cmp::Gt, Item::Constant(10)),
            negate(1),
            concat(0, 2),
            map(alloc, 3, &[column, Item::Constant(-9)])?,
            view(4),
        ],
    )
}

#[test]
fn linear_nodes_are_taken(rt: HostRuntime) -> Result<(), Fail> {
    let text = linear(rt.alloc())?.to_string(rt.alloc())?;
    let want = "0: input 2, width 2\n\
                1: filter 0 c1 gt =10, width 2\n\
                2: negate 1, width 2\n\
                3: concat 0 2, width 2\n\
                4: map 3 c1 =-9, width 2\n\
                5: view 4, width 2\n";
    assert_eq!(rt; text.as_str(), want);
    Ok(())
}

// The nodes that read arranged rows.
fn keyed(alloc: Global) -> Result<Plan, Refusal> {
    built(
        alloc,
        &[
            input(3),
            arrange(0, 2),
            join(1, 1),
            reduce(Kind::Count, 1),
            reduce(Kind::Distinct, 1),
            reduce(Kind::Min, 1),
            reduce(Kind::Max, 1),
        ],
    )
}

// A join has the key and the other columns of both rows: 2 + 1 + 1 columns.
#[test]
fn nodes_over_arranged_rows_are_taken(rt: HostRuntime) -> Result<(), Fail> {
    let text = keyed(rt.alloc())?.to_string(rt.alloc())?;
    let want = "0: input 3, width 3\n\
                1: arrange 0 2, width 3\n\
                2: join 1 1, width 4\n\
                3: count 1, width 3\n\
                4: distinct 1, width 3\n\
                5: min 1, width 3\n\
                6: max 1, width 3\n";
    assert_eq!(rt; text.as_str(), want);
    Ok(())
}

// A refused node changes nothing, and the builder can be used further.
#[test]
fn adding_takes_memory(rt: HostRuntime) {
    let mut builder = PlanBuilder::new(rt.alloc());
    for n in 0usize..5 {
        let added = match builder.add(input(1)) {
            Err(Refusal::OutOfMemory) => builder.add(input(1)),
            done => done,
        };
        assert!(rt; added == Ok(NodeId::new(n)));
    }
}

fn mapped(alloc: Global) -> Result<Plan, Refusal> {
    built(alloc, &[input(1), map(alloc, 0, &[Item::Column(0)])?])
}

fn copied(plan: &Plan) -> Result<Plan, AllocError> {
    Ok(plan.clone()?)
}

// A copy has its own list of nodes, and its own items.
#[test]
fn copies_take_memory(rt: HostRuntime) -> Result<(), Fail> {
    let plan = match mapped(rt.alloc()) {
        Err(Refusal::OutOfMemory) => mapped(rt.alloc())?,
        done => done?,
    };
    let copy = match copied(&plan) {
        Err(_refused) => copied(&plan)?,
        done => done?,
    };
    assert!(rt; copy == plan);
    Ok(())
}

// The numbers of edges from the first node, of inputs and of views.
fn counted(alloc: Global, nodes: &[Node]) -> Result<[usize; 3], Refusal> {
    let plan = built(alloc, nodes)?;
    let edges = plan.edges_from(alloc, NodeId::new(0))?;
    let inputs = plan.inputs(alloc)?;
    let views = plan.views(alloc)?;
    Ok([edges.len(), inputs.len(), views.len()])
}

#[test]
fn lists_of_nodes_take_memory(rt: HostRuntime) -> Result<(), Fail> {
    let nodes = [input(1), concat(0, 0), view(1)];
    let counts = match counted(rt.alloc(), &nodes) {
        Err(Refusal::OutOfMemory) => counted(rt.alloc(), &nodes)?,
        done => done?,
    };
    assert_eq!(rt; counts, [2, 1, 1]);
    Ok(())
}
