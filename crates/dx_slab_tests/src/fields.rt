//! Fields as native text.

// Four by three points.
pub(crate) const PLANE: &str =
    "object 1 class gridpositions counts 4 3\norigin 0 0\ndelta 1 0\ndelta 0 1\nobject 2 class gridconnections counts 4 3\nattribute \"element type\" string \"quads\"\nattribute \"ref\" string \"positions\"\nobject 3 class array type int rank 0 items 12 data follows\n1\n2\n3\n4\n5\n6\n7\n8\n9\n10\n11\n12\nattribute \"dep\" string \"positions\"\nobject 4 class field\ncomponent \"positions\" value 1\ncomponent \"connections\" value 2\ncomponent \"data\" value 3\nend\n";

// Two by three by two points, with components of all kinds, each of another class.
pub(crate) const SOLID: &str =
    "object 1 class regulararray type short rank 0 items 12\norigin 10\ndelta -3\nobject 2 class gridpositions counts 2 3 2\norigin 5 -5 7\ndelta 1 2 3\ndelta 10 0 -1\ndelta 0 0 4\nattribute \"unit\" string \"m\"\nobject 3 class gridconnections counts 2 3 2\nattribute \"element type\" string \"quads\"\nattribute \"ref\" string \"positions\"\nobject 4 class constantarray type unsigned byte rank 1 shape 2 items 2 data follows\n7 8\nattribute \"dep\" string \"connections\"\nobject 5 class array type int rank 0 items 2 data follows\n21\n22\nattribute \"dep\" string \"connections\"\nobject 6 class array type int rank 1 shape 2 items 12 data follows\n0 100\n1 99\n2 98\n3 97\n4 96\n5 95\n6 94\n7 93\n8 92\n9 91\n10 90\n11 89\nattribute \"dep\" string \"positions\"\nattribute \"unit\" number 4\nobject 7 class array type int rank 0 items 12 data follows\n0\n1\n2\n3\n4\n5\n6\n7\n8\n9\n10\n11\nattribute \"dep\" string \"data\"\nobject 8 class array type int rank 0 items 3 data follows\n1\n2\n3\nobject 9 class field\ncomponent \"data\" value 1\ncomponent \"positions\" value 2\ncomponent \"connections\" value 3\ncomponent \"faces\" value 4\ncomponent \"cells\" value 5\ncomponent \"place\" value 6\ncomponent \"beside\" value 7\ncomponent \"alone\" value 8\nattribute \"name\" string \"solid\"\nend\n";

// Two by three by two points, with vectors of four values that are stored one by one.
pub(crate) const VECTORS: &str =
    "object 1 class gridpositions counts 2 3 2\norigin 0 0 0\ndelta 1 0 0\ndelta 0 1 0\ndelta 0 0 1\nobject 2 class gridconnections counts 2 3 2\nobject 3 class array type int rank 1 shape 4 items 12 data follows\n0 100 200 300\n1 101 201 301\n2 102 202 302\n3 103 203 303\n4 104 204 304\n5 105 205 305\n6 106 206 306\n7 107 207 307\n8 108 208 308\n9 109 209 309\n10 110 210 310\n11 111 211 311\nattribute \"dep\" string \"positions\"\nobject 4 class field\ncomponent \"positions\" value 1\ncomponent \"connections\" value 2\ncomponent \"data\" value 3\nend\n";

// One by three by one points.
pub(crate) const LINE: &str =
    "object 1 class gridpositions counts 1 3 1\norigin 0 0 0\ndelta 1 0 0\ndelta 0 1 0\ndelta 0 0 1\nobject 2 class gridconnections counts 3\nobject 3 class array type int rank 0 items 2 data follows\n4\n5\nattribute \"dep\" string \"connections\"\nobject 4 class array type int rank 0 items 3 data follows\n1\n2\n3\nattribute \"dep\" string \"positions\"\nobject 5 class field\ncomponent \"positions\" value 1\ncomponent \"connections\" value 2\ncomponent \"data\" value 3\ncomponent \"at\" value 4\nend\n";

// Its data has no `dep` and three items for two points.
pub(crate) const ODD: &str =
    "object 1 class gridpositions counts 2 1\norigin 0 0\ndelta 1 0\ndelta 0 1\nobject 2 class gridconnections counts 2\nobject 3 class array type int rank 0 items 3 data follows\n1\n2\n3\nobject 4 class field\ncomponent \"positions\" value 1\ncomponent \"connections\" value 2\ncomponent \"data\" value 3\nend\n";

// Its data refers to its positions.
pub(crate) const REFERS: &str =
    "object 1 class gridpositions counts 4 3\norigin 0 0\ndelta 1 0\ndelta 0 1\nobject 2 class gridconnections counts 4 3\nattribute \"element type\" string \"quads\"\nattribute \"ref\" string \"positions\"\nobject 3 class array type int rank 0 items 12 data follows\n0\n1\n2\n3\n4\n5\n6\n7\n8\n9\n10\n11\nattribute \"dep\" string \"positions\"\nattribute \"ref\" string \"positions\"\nobject 4 class field\ncomponent \"positions\" value 1\ncomponent \"connections\" value 2\ncomponent \"data\" value 3\nend\n";

// Its points are no grid.
pub(crate) const APART: &str =
    "object 1 class array type int rank 1 shape 2 items 2 data follows\n0 0\n1 1\nobject 2 class array type int rank 0 items 2 data follows\n1\n2\nobject 3 class field\ncomponent \"positions\" value 1\ncomponent \"data\" value 2\nend\n";

// Its data has eleven items for twelve points.
pub(crate) const SHORT: &str =
    "object 1 class gridpositions counts 4 3\norigin 0 0\ndelta 1 0\ndelta 0 1\nobject 2 class gridconnections counts 4 3\nattribute \"element type\" string \"quads\"\nattribute \"ref\" string \"positions\"\nobject 3 class array type int rank 0 items 11 data follows\n0\n1\n2\n3\n4\n5\n6\n7\n8\n9\n10\nattribute \"dep\" string \"positions\"\nobject 4 class field\ncomponent \"positions\" value 1\ncomponent \"connections\" value 2\ncomponent \"data\" value 3\nend\n";

// Its cells are those of another grid.
pub(crate) const JOINED: &str =
    "object 1 class gridpositions counts 4 3\norigin 0 0\ndelta 1 0\ndelta 0 1\nobject 2 class gridconnections counts 3 4\nobject 3 class field\ncomponent \"positions\" value 1\ncomponent \"connections\" value 2\nend\n";

// A single point.
pub(crate) const POINT: &str =
    "object 1 class gridpositions counts 1 1\norigin 3 4\ndelta 1 0\ndelta 0 1\nobject 2 class array type int rank 0 items 1 data follows\n9\nobject 3 class field\ncomponent \"positions\" value 1\ncomponent \"data\" value 2\nend\n";

// So many points on a line that no object holds a slab of each, and that a series of them is too large.
pub(crate) const LONG: &str =
    "object 1 class gridpositions counts 16777216\norigin 0\ndelta 1\nobject 2 class gridconnections counts 16777216\nobject 3 class field\ncomponent \"positions\" value 1\ncomponent \"connections\" value 2\nend\n";

// A constant of many bytes, which fit no object where they stand one by one.
pub(crate) const WIDE: &str =
    "object 1 class gridpositions counts 2 2097152\norigin 0 0\ndelta 1 0\ndelta 0 1\nobject 2 class gridconnections counts 2 2097152\nobject 3 class constantarray type int rank 1 shape 32 items 4194304 data follows\n1 1 1 1 1 1 1 1 1 1 1 1 1 1 1 1 1 1 1 1 1 1 1 1 1 1 1 1 1 1 1 1\nattribute \"dep\" string \"positions\"\nobject 4 class field\ncomponent \"positions\" value 1\ncomponent \"connections\" value 2\ncomponent \"data\" value 3\nend\n";

// Three by four points, with data on the cells between them.
pub(crate) const CELLS: &str =
    "object 1 class gridpositions counts 3 4\norigin 1 2\ndelta 10 0\ndelta 0 5\nobject 2 class gridconnections counts 3 4\nobject 3 class array type int rank 0 items 6 data follows\n1\n2\n3\n4\n5\n6\nattribute \"dep\" string \"connections\"\nobject 4 class field\ncomponent \"positions\" value 1\ncomponent \"connections\" value 2\ncomponent \"data\" value 3\nend\n";

// Three by one by three points, with data on the cells.
pub(crate) const FLAT: &str =
    "object 1 class gridpositions counts 3 1 3\norigin 0 0 0\ndelta 1 0 0\ndelta 0 1 0\ndelta 0 0 1\nobject 2 class gridconnections counts 3 3\nobject 3 class array type int rank 0 items 4 data follows\n1\n2\n3\n4\nattribute \"dep\" string \"connections\"\nobject 4 class array type int rank 0 items 9 data follows\n1\n2\n3\n4\n5\n6\n7\n8\n9\nattribute \"dep\" string \"positions\"\nobject 5 class field\ncomponent \"positions\" value 1\ncomponent \"connections\" value 2\ncomponent \"data\" value 3\ncomponent \"at\" value 4\nend\n";

// Three points. What depends on points and cells is points and cells of other grids, and these depend on that.
pub(crate) const CLASSES: &str =
    "object 1 class gridpositions counts 3\norigin 10\ndelta 5\nattribute \"dep\" string \"walk\"\nobject 2 class gridconnections counts 3\nattribute \"dep\" string \"links\"\nattribute \"ref\" string \"positions\"\nobject 3 class gridpositions counts 3\norigin 0\ndelta -2\nattribute \"dep\" string \"positions\"\nobject 4 class gridconnections counts 3\nattribute \"dep\" string \"connections\"\nobject 5 class array type unsigned int rank 0 items 3 data follows\n4294967295\n0\n7\nattribute \"dep\" string \"walk\"\nobject 6 class array type int rank 0 items 2 data follows\n8\n9\nattribute \"dep\" string \"links\"\nobject 7 class field\ncomponent \"positions\" value 1\ncomponent \"connections\" value 2\ncomponent \"walk\" value 3\ncomponent \"links\" value 4\ncomponent \"third\" value 5\ncomponent \"fourth\" value 6\nend\n";

// Its positions refer to themselves.
pub(crate) const SELF: &str =
    "object 1 class gridpositions counts 2\norigin 0\ndelta 1\nattribute \"ref\" string \"positions\"\nobject 2 class gridconnections counts 2\nobject 3 class field\ncomponent \"positions\" value 1\ncomponent \"connections\" value 2\nend\n";

// A component beside the grid refers to its positions.
pub(crate) const SIDE: &str =
    "object 1 class gridpositions counts 2\norigin 0\ndelta 1\nobject 2 class gridconnections counts 2\nobject 3 class array type int rank 0 items 1 data follows\n0\nattribute \"ref\" string \"positions\"\nobject 4 class field\ncomponent \"positions\" value 1\ncomponent \"connections\" value 2\ncomponent \"side\" value 3\nend\n";

// A value of its data names no position.
pub(crate) const STRAY: &str =
    "object 1 class gridpositions counts 2\norigin 0\ndelta 1\nobject 2 class gridconnections counts 2\nobject 3 class array type int rank 0 items 2 data follows\n0\n2\nattribute \"ref\" string \"positions\"\nobject 4 class field\ncomponent \"positions\" value 1\ncomponent \"connections\" value 2\ncomponent \"data\" value 3\nend\n";

// A component refers to the positions, and its data has three items for two points.
pub(crate) const BENT: &str =
    "object 1 class gridpositions counts 2\norigin 0\ndelta 1\nobject 2 class gridconnections counts 2\nobject 3 class array type int rank 0 items 3 data follows\n1\n2\n3\nobject 4 class array type int rank 0 items 1 data follows\n0\nattribute \"ref\" string \"positions\"\nobject 5 class field\ncomponent \"positions\" value 1\ncomponent \"connections\" value 2\ncomponent \"data\" value 3\ncomponent \"side\" value 4\nend\n";

// Its points are no grid, and its data has three items for two points.
pub(crate) const LOOSE: &str =
    "object 1 class array type int rank 1 shape 2 items 2 data follows\n0 0\n1 1\nobject 2 class array type int rank 0 items 3 data follows\n1\n2\n3\nobject 3 class field\ncomponent \"positions\" value 1\ncomponent \"data\" value 2\nend\n";

// Its points are no grid, and its data depends on what is not there.
pub(crate) const LOST: &str =
    "object 1 class array type int rank 1 shape 2 items 2 data follows\n0 0\n1 1\nobject 2 class array type int rank 0 items 2 data follows\n1\n2\nattribute \"dep\" string \"faces\"\nobject 3 class field\ncomponent \"positions\" value 1\ncomponent \"data\" value 2\nend\n";

// No fields: an array, a text, and groups and a series of a field.
pub(crate) const ARRAY: &str =
    "object 1 class array type int rank 0 items 1 data follows\n5\nend\n";

pub(crate) const WORDS: &str = "object 1 class string \"x\"\nend\n";

pub(crate) const GROUP: &str =
    "object 1 class gridpositions counts 1\norigin 0\ndelta 1\nobject 2 class field\ncomponent \"positions\" value 1\nobject 3 class group\nmember 0 value 2\nend\n";

pub(crate) const COMPOSITE: &str =
    "object 1 class gridpositions counts 1\norigin 0\ndelta 1\nobject 2 class field\ncomponent \"positions\" value 1\nobject 3 class compositefield\nmember 0 value 2\nend\n";

pub(crate) const SERIES: &str =
    "object 1 class gridpositions counts 1\norigin 0\ndelta 1\nobject 2 class field\ncomponent \"positions\" value 1\nobject 3 class series\nmember 0 position 0 value 2\nend\n";

// Sixteen points. With its attributes, which it shares, a slab of two of them is 69,905 objects: fifteen, and the series of them, are
// 1,048,576, which is as many as an object can be.
pub(crate) const FULL: &str =
    "object g0 class string \"\"\nobject g1 class group\nmember 0 value g0\nmember 1 value g0\nobject g2 class group\nmember 0 value g1\nmember 1 value g1\nobject g3 class group\nmember 0 value g2\nmember 1 value g2\nobject g4 class group\nmember 0 value g3\nmember 1 value g3\nobject g5 class group\nmember 0 value g4\nmember 1 value g4\nobject g6 class group\nmember 0 value g5\nmember 1 value g5\nobject g7 class group\nmember 0 value g6\nmember 1 value g6\nobject g8 class group\nmember 0 value g7\nmember 1 value g7\nobject g9 class group\nmember 0 value g8\nmember 1 value g8\nobject g10 class group\nmember 0 value g9\nmember 1 value g9\nobject g11 class group\nmember 0 value g10\nmember 1 value g10\nobject g12 class group\nmember 0 value g11\nmember 1 value g11\nobject g13 class group\nmember 0 value g12\nmember 1 value g12\nobject g14 class group\nmember 0 value g13\nmember 1 value g13\nobject g15 class group\nmember 0 value g14\nmember 1 value g14\nobject 1 class gridpositions counts 16\norigin 0\ndelta 1\nobject 2 class gridconnections counts 16\nobject 3 class field\ncomponent \"positions\" value 1\ncomponent \"connections\" value 2\nattribute \"a\" value g15\nattribute \"b\" value g11\nattribute \"c\" value g7\nattribute \"d\" value g3\nattribute \"e\" value g0\nattribute \"f\" value g0\nend\n";
