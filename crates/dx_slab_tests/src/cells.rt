//! What becomes of components that depend on cells, and of those of every class.
use crate::asked::{Given, all_give};
use crate::fields::{CELLS, CLASSES, FLAT, PLANE};
use std::test::Fail;

const NULL: Given<'static> = Given::Null;

const CUTS: [(&str, [Given<'static>; 3], &str); 16] = [
    (
        CELLS,
        [Given::Number(0), Given::Number(0), NULL],
        "object 1 class gridpositions counts 1 4\norigin 1 2\ndelta 10 0\ndelta 0 5\nobject 2 class gridconnections counts 4\nobject 3 class array type int rank 0 items 3 data follows\n1\n2\n3\nattribute \"dep\" string \"connections\"\nobject 4 class field\ncomponent \"positions\" value 1\ncomponent \"connections\" value 2\ncomponent \"data\" value 3\nend\n",
    ),
    (
        CELLS,
        [Given::Number(0), Given::Number(1), Given::Number(0)],
        "object 1 class gridpositions counts 1 4\norigin 11 2\ndelta 10 0\ndelta 0 5\nobject 2 class gridconnections counts 4\nobject 3 class array type int rank 0 items 3 data follows\n4\n5\n6\nattribute \"dep\" string \"connections\"\nobject 4 class field\ncomponent \"positions\" value 1\ncomponent \"connections\" value 2\ncomponent \"data\" value 3\nend\n",
    ),
    (
        CELLS,
        [Given::Number(0), Given::Number(2), NULL],
        "object 1 class gridpositions counts 1 4\norigin 21 2\ndelta 10 0\ndelta 0 5\nobject 2 class gridconnections counts 4\nobject 3 class array type int rank 0 items 3 data follows\n4\n5\n6\nattribute \"dep\" string \"connections\"\nobject 4 class field\ncomponent \"positions\" value 1\ncomponent \"connections\" value 2\ncomponent \"data\" value 3\nend\n",
    ),
    (
        CELLS,
        [Given::Number(1), Given::Number(1), NULL],
        "object 1 class gridpositions counts 3 1\norigin 1 7\ndelta 10 0\ndelta 0 5\nobject 2 class gridconnections counts 3\nobject 3 class array type int rank 0 items 2 data follows\n2\n5\nattribute \"dep\" string \"connections\"\nobject 4 class field\ncomponent \"positions\" value 1\ncomponent \"connections\" value 2\ncomponent \"data\" value 3\nend\n",
    ),
    (
        CELLS,
        [Given::Text("y"), Given::Number(3), NULL],
        "object 1 class gridpositions counts 3 1\norigin 1 17\ndelta 10 0\ndelta 0 5\nobject 2 class gridconnections counts 3\nobject 3 class array type int rank 0 items 2 data follows\n3\n6\nattribute \"dep\" string \"connections\"\nobject 4 class field\ncomponent \"positions\" value 1\ncomponent \"connections\" value 2\ncomponent \"data\" value 3\nend\n",
    ),
    (
        CELLS,
        [Given::Number(1), Given::Number(1), Given::Number(2)],
        "object 1 class gridpositions counts 3 3\norigin 1 7\ndelta 10 0\ndelta 0 5\nobject 2 class gridconnections counts 3 3\nobject 3 class array type int rank 0 items 4 data follows\n2\n3\n5\n6\nattribute \"dep\" string \"connections\"\nobject 4 class field\ncomponent \"positions\" value 1\ncomponent \"connections\" value 2\ncomponent \"data\" value 3\nend\n",
    ),
    (
        CELLS,
        [Given::Text("y"), Given::Number(0), Given::Number(3)],
        "object 1 class gridpositions counts 3 4\norigin 1 2\ndelta 10 0\ndelta 0 5\nobject 2 class gridconnections counts 3 4\nobject 3 class array type int rank 0 items 6 data follows\n1\n2\n3\n4\n5\n6\nattribute \"dep\" string \"connections\"\nobject 4 class field\ncomponent \"positions\" value 1\ncomponent \"connections\" value 2\ncomponent \"data\" value 3\nend\n",
    ),
    (
        CELLS,
        [Given::Text("x"), NULL, Given::Number(1)],
        "object 1 class gridpositions counts 2 4\norigin 1 2\ndelta 10 0\ndelta 0 5\nobject 2 class gridconnections counts 2 4\nobject 3 class array type int rank 0 items 3 data follows\n1\n2\n3\nattribute \"dep\" string \"connections\"\nobject 4 class field\ncomponent \"positions\" value 1\ncomponent \"connections\" value 2\ncomponent \"data\" value 3\nobject 5 class gridpositions counts 2 4\norigin 11 2\ndelta 10 0\ndelta 0 5\nobject 6 class gridconnections counts 2 4\nobject 7 class array type int rank 0 items 3 data follows\n4\n5\n6\nattribute \"dep\" string \"connections\"\nobject 8 class field\ncomponent \"positions\" value 5\ncomponent \"connections\" value 6\ncomponent \"data\" value 7\nobject 9 class series\nmember 0 position 0 value 4\nmember 1 position 1 value 8\nend\n",
    ),
    (
        FLAT,
        [Given::Number(1), Given::Number(0), Given::Number(0)],
        "object 1 class gridpositions counts 3 1 3\norigin 0 0 0\ndelta 1 0 0\ndelta 0 1 0\ndelta 0 0 1\nobject 2 class gridconnections counts 3 3\nobject 3 class array type int rank 0 items 4 data follows\n1\n2\n3\n4\nattribute \"dep\" string \"connections\"\nobject 4 class array type int rank 0 items 9 data follows\n1\n2\n3\n4\n5\n6\n7\n8\n9\nattribute \"dep\" string \"positions\"\nobject 5 class field\ncomponent \"positions\" value 1\ncomponent \"connections\" value 2\ncomponent \"data\" value 3\ncomponent \"at\" value 4\nend\n",
    ),
    (
        FLAT,
        [Given::Number(0), Given::Number(1), Given::Number(0)],
        "object 1 class gridpositions counts 1 1 3\norigin 1 0 0\ndelta 1 0 0\ndelta 0 1 0\ndelta 0 0 1\nobject 2 class gridconnections counts 3\nobject 3 class array type int rank 0 items 2 data follows\n3\n4\nattribute \"dep\" string \"connections\"\nobject 4 class array type int rank 0 items 3 data follows\n4\n5\n6\nattribute \"dep\" string \"positions\"\nobject 5 class field\ncomponent \"positions\" value 1\ncomponent \"connections\" value 2\ncomponent \"data\" value 3\ncomponent \"at\" value 4\nend\n",
    ),
    (
        FLAT,
        [Given::Text("z"), Given::Number(2), NULL],
        "object 1 class gridpositions counts 3 1 1\norigin 0 0 2\ndelta 1 0 0\ndelta 0 1 0\ndelta 0 0 1\nobject 2 class gridconnections counts 3\nobject 3 class array type int rank 0 items 2 data follows\n2\n4\nattribute \"dep\" string \"connections\"\nobject 4 class array type int rank 0 items 3 data follows\n3\n6\n9\nattribute \"dep\" string \"positions\"\nobject 5 class field\ncomponent \"positions\" value 1\ncomponent \"connections\" value 2\ncomponent \"data\" value 3\ncomponent \"at\" value 4\nend\n",
    ),
    (
        CLASSES,
        [Given::Text("x"), Given::Number(1), Given::Number(1)],
        "object 1 class gridpositions counts 2\norigin 15\ndelta 5\nattribute \"dep\" string \"walk\"\nobject 2 class gridconnections counts 2\nattribute \"dep\" string \"links\"\nattribute \"ref\" string \"positions\"\nobject 3 class array type int rank 1 shape 1 items 2 data follows\n-2\n-4\nattribute \"dep\" string \"positions\"\nobject 4 class array type int rank 1 shape 2 items 1 data follows\n1 2\nattribute \"dep\" string \"connections\"\nobject 5 class array type unsigned int rank 0 items 3 data follows\n4294967295\n0\n7\nattribute \"dep\" string \"walk\"\nobject 6 class array type int rank 0 items 2 data follows\n8\n9\nattribute \"dep\" string \"links\"\nobject 7 class field\ncomponent \"positions\" value 1\ncomponent \"connections\" value 2\ncomponent \"walk\" value 3\ncomponent \"links\" value 4\ncomponent \"third\" value 5\ncomponent \"fourth\" value 6\nend\n",
    ),
    (
        CLASSES,
        [Given::Number(0), Given::Number(2), NULL],
        "object 1 class gridpositions counts 1\norigin 20\ndelta 5\nattribute \"dep\" string \"walk\"\nobject 2 class array type int rank 1 shape 1 items 1 data follows\n-4\nattribute \"dep\" string \"positions\"\nobject 3 class array type unsigned int rank 0 items 3 data follows\n4294967295\n0\n7\nattribute \"dep\" string \"walk\"\nobject 4 class array type int rank 0 items 2 data follows\n8\n9\nattribute \"dep\" string \"links\"\nobject 5 class field\ncomponent \"positions\" value 1\ncomponent \"walk\" value 2\ncomponent \"third\" value 3\ncomponent \"fourth\" value 4\nend\n",
    ),
    (
        PLANE,
        [Given::Number(0), Given::Number(1), NULL],
        "object 1 class gridpositions counts 1 3\norigin 1 0\ndelta 1 0\ndelta 0 1\nobject 2 class gridconnections counts 3\nattribute \"element type\" string \"quads\"\nattribute \"ref\" string \"positions\"\nobject 3 class array type int rank 0 items 3 data follows\n4\n5\n6\nattribute \"dep\" string \"positions\"\nobject 4 class field\ncomponent \"positions\" value 1\ncomponent \"connections\" value 2\ncomponent \"data\" value 3\nend\n",
    ),
    (
        PLANE,
        [Given::Constant(1), Given::Constant(2), Given::Constant(0)],
        "object 1 class gridpositions counts 4 1\norigin 0 2\ndelta 1 0\ndelta 0 1\nobject 2 class gridconnections counts 4\nattribute \"element type\" string \"quads\"\nattribute \"ref\" string \"positions\"\nobject 3 class array type int rank 0 items 4 data follows\n3\n6\n9\n12\nattribute \"dep\" string \"positions\"\nobject 4 class field\ncomponent \"positions\" value 1\ncomponent \"connections\" value 2\ncomponent \"data\" value 3\nend\n",
    ),
    (
        PLANE,
        [Given::Number(1), NULL, Given::Number(2)],
        "object 1 class gridpositions counts 4 3\norigin 0 0\ndelta 1 0\ndelta 0 1\nobject 2 class gridconnections counts 4 3\nattribute \"element type\" string \"quads\"\nattribute \"ref\" string \"positions\"\nobject 3 class array type int rank 0 items 12 data follows\n1\n2\n3\n4\n5\n6\n7\n8\n9\n10\n11\n12\nattribute \"dep\" string \"positions\"\nobject 4 class field\ncomponent \"positions\" value 1\ncomponent \"connections\" value 2\ncomponent \"data\" value 3\nobject 5 class series\nmember 0 position 0 value 4\nend\n",
    ),
];

#[test]
fn cells_are_cut(rt: HostRuntime) -> Result<(), Fail> {
    all_give(rt.alloc(), &CUTS)
}
