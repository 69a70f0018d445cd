//! Rows of a field, a dimension, a position and a thickness, and what they give.
use crate::asked::{Given, all_give};
use crate::fields::{
    APART, JOINED, LINE, LONG, ODD, PLANE, POINT, REFERS, SHORT, SOLID, VECTORS, WIDE,
};
use std::test::Fail;

const NULL: Given<'static> = Given::Null;

const SLABS: [(&str, [Given<'static>; 3], &str); 23] = [
    (
        PLANE,
        [Given::Text("y"), Given::Number(2), NULL],
        "object 1 class gridpositions counts 4 1\norigin 0 2\ndelta 1 0\ndelta 0 1\nobject 2 class gridconnections counts 4\nattribute \"element type\" string \"quads\"\nattribute \"ref\" string \"positions\"\nobject 3 class array type int rank 0 items 4 data follows\n3\n6\n9\n12\nattribute \"dep\" string \"positions\"\nobject 4 class field\ncomponent \"positions\" value 1\ncomponent \"connections\" value 2\ncomponent \"data\" value 3\nend\n",
    ),
    (
        PLANE,
        [Given::Number(1), NULL, NULL],
        "object 1 class gridpositions counts 4 1\norigin 0 0\ndelta 1 0\ndelta 0 1\nobject 2 class gridconnections counts 4\nattribute \"element type\" string \"quads\"\nattribute \"ref\" string \"positions\"\nobject 3 class array type int rank 0 items 4 data follows\n1\n4\n7\n10\nattribute \"dep\" string \"positions\"\nobject 4 class field\ncomponent \"positions\" value 1\ncomponent \"connections\" value 2\ncomponent \"data\" value 3\nobject 5 class gridpositions counts 4 1\norigin 0 1\ndelta 1 0\ndelta 0 1\nobject 6 class gridconnections counts 4\nattribute \"element type\" string \"quads\"\nattribute \"ref\" string \"positions\"\nobject 7 class array type int rank 0 items 4 data follows\n2\n5\n8\n11\nattribute \"dep\" string \"positions\"\nobject 8 class field\ncomponent \"positions\" value 5\ncomponent \"connections\" value 6\ncomponent \"data\" value 7\nobject 9 class gridpositions counts 4 1\norigin 0 2\ndelta 1 0\ndelta 0 1\nobject 10 class gridconnections counts 4\nattribute \"element type\" string \"quads\"\nattribute \"ref\" string \"positions\"\nobject 11 class array type int rank 0 items 4 data follows\n3\n6\n9\n12\nattribute \"dep\" string \"positions\"\nobject 12 class field\ncomponent \"positions\" value 9\ncomponent \"connections\" value 10\ncomponent \"data\" value 11\nobject 13 class series\nmember 0 position 0 value 4\nmember 1 position 1 value 8\nmember 2 position 2 value 12\nend\n",
    ),
    (
        PLANE,
        [Given::Number(0), Given::Number(1), Given::Number(1)],
        "object 1 class gridpositions counts 2 3\norigin 1 0\ndelta 1 0\ndelta 0 1\nobject 2 class gridconnections counts 2 3\nattribute \"element type\" string \"quads\"\nattribute \"ref\" string \"positions\"\nobject 3 class array type int rank 0 items 6 data follows\n4\n5\n6\n7\n8\n9\nattribute \"dep\" string \"positions\"\nobject 4 class field\ncomponent \"positions\" value 1\ncomponent \"connections\" value 2\ncomponent \"data\" value 3\nend\n",
    ),
    (
        PLANE,
        [Given::Number(0), Given::Number(3), Given::Number(0)],
        "object 1 class gridpositions counts 1 3\norigin 3 0\ndelta 1 0\ndelta 0 1\nobject 2 class gridconnections counts 3\nattribute \"element type\" string \"quads\"\nattribute \"ref\" string \"positions\"\nobject 3 class array type int rank 0 items 3 data follows\n10\n11\n12\nattribute \"dep\" string \"positions\"\nobject 4 class field\ncomponent \"positions\" value 1\ncomponent \"connections\" value 2\ncomponent \"data\" value 3\nend\n",
    ),
    (
        PLANE,
        [Given::Number(0), Given::Number(0), Given::Number(3)],
        "object 1 class gridpositions counts 4 3\norigin 0 0\ndelta 1 0\ndelta 0 1\nobject 2 class gridconnections counts 4 3\nattribute \"element type\" string \"quads\"\nattribute \"ref\" string \"positions\"\nobject 3 class array type int rank 0 items 12 data follows\n1\n2\n3\n4\n5\n6\n7\n8\n9\n10\n11\n12\nattribute \"dep\" string \"positions\"\nobject 4 class field\ncomponent \"positions\" value 1\ncomponent \"connections\" value 2\ncomponent \"data\" value 3\nend\n",
    ),
    (
        PLANE,
        [Given::Text("y"), Given::Number(0), NULL],
        "object 1 class gridpositions counts 4 1\norigin 0 0\ndelta 1 0\ndelta 0 1\nobject 2 class gridconnections counts 4\nattribute \"element type\" string \"quads\"\nattribute \"ref\" string \"positions\"\nobject 3 class array type int rank 0 items 4 data follows\n1\n4\n7\n10\nattribute \"dep\" string \"positions\"\nobject 4 class field\ncomponent \"positions\" value 1\ncomponent \"connections\" value 2\ncomponent \"data\" value 3\nend\n",
    ),
    (
        SOLID,
        [Given::Number(0), Given::Number(0), Given::Number(1)],
        "object 1 class array type short rank 0 items 12 data follows\n10\n7\n4\n1\n-2\n-5\n-8\n-11\n-14\n-17\n-20\n-23\nobject 2 class gridpositions counts 2 3 2\norigin 5 -5 7\ndelta 1 2 3\ndelta 10 0 -1\ndelta 0 0 4\nattribute \"unit\" string \"m\"\nobject 3 class gridconnections counts 2 3 2\nattribute \"element type\" string \"quads\"\nattribute \"ref\" string \"positions\"\nobject 4 class array type unsigned byte rank 1 shape 2 items 2 data follows\n7 8\n7 8\nattribute \"dep\" string \"connections\"\nobject 5 class array type int rank 0 items 2 data follows\n21\n22\nattribute \"dep\" string \"connections\"\nobject 6 class array type int rank 1 shape 2 items 12 data follows\n0 100\n1 99\n2 98\n3 97\n4 96\n5 95\n6 94\n7 93\n8 92\n9 91\n10 90\n11 89\nattribute \"dep\" string \"positions\"\nattribute \"unit\" number 4\nobject 7 class array type int rank 0 items 12 data follows\n0\n1\n2\n3\n4\n5\n6\n7\n8\n9\n10\n11\nattribute \"dep\" string \"data\"\nobject 8 class array type int rank 0 items 3 data follows\n1\n2\n3\nobject 9 class field\ncomponent \"data\" value 1\ncomponent \"positions\" value 2\ncomponent \"connections\" value 3\ncomponent \"faces\" value 4\ncomponent \"cells\" value 5\ncomponent \"place\" value 6\ncomponent \"beside\" value 7\ncomponent \"alone\" value 8\nattribute \"name\" string \"solid\"\nend\n",
    ),
    (
        SOLID,
        [Given::Number(1), Given::Number(0), Given::Number(1)],
        "object 1 class array type short rank 0 items 8 data follows\n10\n7\n4\n1\n-8\n-11\n-14\n-17\nobject 2 class gridpositions counts 2 2 2\norigin 5 -5 7\ndelta 1 2 3\ndelta 10 0 -1\ndelta 0 0 4\nattribute \"unit\" string \"m\"\nobject 3 class gridconnections counts 2 2 2\nattribute \"element type\" string \"quads\"\nattribute \"ref\" string \"positions\"\nobject 4 class array type unsigned byte rank 1 shape 2 items 1 data follows\n7 8\nattribute \"dep\" string \"connections\"\nobject 5 class array type int rank 0 items 1 data follows\n21\nattribute \"dep\" string \"connections\"\nobject 6 class array type int rank 1 shape 2 items 8 data follows\n0 100\n1 99\n2 98\n3 97\n6 94\n7 93\n8 92\n9 91\nattribute \"dep\" string \"positions\"\nattribute \"unit\" number 4\nobject 7 class array type int rank 0 items 12 data follows\n0\n1\n2\n3\n4\n5\n6\n7\n8\n9\n10\n11\nattribute \"dep\" string \"data\"\nobject 8 class array type int rank 0 items 3 data follows\n1\n2\n3\nobject 9 class field\ncomponent \"data\" value 1\ncomponent \"positions\" value 2\ncomponent \"connections\" value 3\ncomponent \"faces\" value 4\ncomponent \"cells\" value 5\ncomponent \"place\" value 6\ncomponent \"beside\" value 7\ncomponent \"alone\" value 8\nattribute \"name\" string \"solid\"\nend\n",
    ),
    (
        SOLID,
        [Given::Number(1), Given::Number(2), Given::Number(0)],
        "object 1 class array type short rank 0 items 4 data follows\n-2\n-5\n-20\n-23\nobject 2 class gridpositions counts 2 1 2\norigin 25 -5 5\ndelta 1 2 3\ndelta 10 0 -1\ndelta 0 0 4\nattribute \"unit\" string \"m\"\nobject 3 class gridconnections counts 2 2\nattribute \"element type\" string \"quads\"\nattribute \"ref\" string \"positions\"\nobject 4 class array type unsigned byte rank 1 shape 2 items 1 data follows\n7 8\nattribute \"dep\" string \"connections\"\nobject 5 class array type int rank 0 items 1 data follows\n22\nattribute \"dep\" string \"connections\"\nobject 6 class array type int rank 1 shape 2 items 4 data follows\n4 96\n5 95\n10 90\n11 89\nattribute \"dep\" string \"positions\"\nattribute \"unit\" number 4\nobject 7 class array type int rank 0 items 12 data follows\n0\n1\n2\n3\n4\n5\n6\n7\n8\n9\n10\n11\nattribute \"dep\" string \"data\"\nobject 8 class array type int rank 0 items 3 data follows\n1\n2\n3\nobject 9 class field\ncomponent \"data\" value 1\ncomponent \"positions\" value 2\ncomponent \"connections\" value 3\ncomponent \"faces\" value 4\ncomponent \"cells\" value 5\ncomponent \"place\" value 6\ncomponent \"beside\" value 7\ncomponent \"alone\" value 8\nattribute \"name\" string \"solid\"\nend\n",
    ),
    (
        SOLID,
        [Given::Text("z"), Given::Number(1), NULL],
        "object 1 class array type short rank 0 items 6 data follows\n7\n1\n-5\n-11\n-17\n-23\nobject 2 class gridpositions counts 2 3 1\norigin 5 -5 11\ndelta 1 2 3\ndelta 10 0 -1\ndelta 0 0 4\nattribute \"unit\" string \"m\"\nobject 3 class gridconnections counts 2 3\nattribute \"element type\" string \"quads\"\nattribute \"ref\" string \"positions\"\nobject 4 class array type unsigned byte rank 1 shape 2 items 2 data follows\n7 8\n7 8\nattribute \"dep\" string \"connections\"\nobject 5 class array type int rank 0 items 2 data follows\n21\n22\nattribute \"dep\" string \"connections\"\nobject 6 class array type int rank 1 shape 2 items 6 data follows\n1 99\n3 97\n5 95\n7 93\n9 91\n11 89\nattribute \"dep\" string \"positions\"\nattribute \"unit\" number 4\nobject 7 class array type int rank 0 items 12 data follows\n0\n1\n2\n3\n4\n5\n6\n7\n8\n9\n10\n11\nattribute \"dep\" string \"data\"\nobject 8 class array type int rank 0 items 3 data follows\n1\n2\n3\nobject 9 class field\ncomponent \"data\" value 1\ncomponent \"positions\" value 2\ncomponent \"connections\" value 3\ncomponent \"faces\" value 4\ncomponent \"cells\" value 5\ncomponent \"place\" value 6\ncomponent \"beside\" value 7\ncomponent \"alone\" value 8\nattribute \"name\" string \"solid\"\nend\n",
    ),
    (
        SOLID,
        [Given::Text("y"), NULL, Given::Number(1)],
        "object 1 class array type short rank 0 items 8 data follows\n10\n7\n4\n1\n-8\n-11\n-14\n-17\nobject 2 class gridpositions counts 2 2 2\norigin 5 -5 7\ndelta 1 2 3\ndelta 10 0 -1\ndelta 0 0 4\nattribute \"unit\" string \"m\"\nobject 3 class gridconnections counts 2 2 2\nattribute \"element type\" string \"quads\"\nattribute \"ref\" string \"positions\"\nobject 4 class array type unsigned byte rank 1 shape 2 items 1 data follows\n7 8\nattribute \"dep\" string \"connections\"\nobject 5 class array type int rank 0 items 1 data follows\n21\nattribute \"dep\" string \"connections\"\nobject 6 class array type int rank 1 shape 2 items 8 data follows\n0 100\n1 99\n2 98\n3 97\n6 94\n7 93\n8 92\n9 91\nattribute \"dep\" string \"positions\"\nattribute \"unit\" number 4\nobject 7 class array type int rank 0 items 12 data follows\n0\n1\n2\n3\n4\n5\n6\n7\n8\n9\n10\n11\nattribute \"dep\" string \"data\"\nobject 8 class array type int rank 0 items 3 data follows\n1\n2\n3\nobject 9 class field\ncomponent \"data\" value 1\ncomponent \"positions\" value 2\ncomponent \"connections\" value 3\ncomponent \"faces\" value 4\ncomponent \"cells\" value 5\ncomponent \"place\" value 6\ncomponent \"beside\" value 7\ncomponent \"alone\" value 8\nattribute \"name\" string \"solid\"\nobject 10 class array type short rank 0 items 8 data follows\n4\n1\n-2\n-5\n-14\n-17\n-20\n-23\nobject 11 class gridpositions counts 2 2 2\norigin 15 -5 6\ndelta 1 2 3\ndelta 10 0 -1\ndelta 0 0 4\nattribute \"unit\" string \"m\"\nobject 12 class gridconnections counts 2 2 2\nattribute \"element type\" string \"quads\"\nattribute \"ref\" string \"positions\"\nobject 13 class array type unsigned byte rank 1 shape 2 items 1 data follows\n7 8\nattribute \"dep\" string \"connections\"\nobject 14 class array type int rank 0 items 1 data follows\n22\nattribute \"dep\" string \"connections\"\nobject 15 class array type int rank 1 shape 2 items 8 data follows\n2 98\n3 97\n4 96\n5 95\n8 92\n9 91\n10 90\n11 89\nattribute \"dep\" string \"positions\"\nattribute \"unit\" number 4\nobject 16 class array type int rank 0 items 12 data follows\n0\n1\n2\n3\n4\n5\n6\n7\n8\n9\n10\n11\nattribute \"dep\" string \"data\"\nobject 17 class array type int rank 0 items 3 data follows\n1\n2\n3\nobject 18 class field\ncomponent \"data\" value 10\ncomponent \"positions\" value 11\ncomponent \"connections\" value 12\ncomponent \"faces\" value 13\ncomponent \"cells\" value 14\ncomponent \"place\" value 15\ncomponent \"beside\" value 16\ncomponent \"alone\" value 17\nattribute \"name\" string \"solid\"\nobject 19 class series\nmember 0 position 0 value 9\nmember 1 position 1 value 18\nend\n",
    ),
    (
        SOLID,
        [Given::Text("x"), NULL, NULL],
        "object 1 class array type short rank 0 items 6 data follows\n10\n7\n4\n1\n-2\n-5\nobject 2 class gridpositions counts 1 3 2\norigin 5 -5 7\ndelta 1 2 3\ndelta 10 0 -1\ndelta 0 0 4\nattribute \"unit\" string \"m\"\nobject 3 class gridconnections counts 3 2\nattribute \"element type\" string \"quads\"\nattribute \"ref\" string \"positions\"\nobject 4 class array type unsigned byte rank 1 shape 2 items 2 data follows\n7 8\n7 8\nattribute \"dep\" string \"connections\"\nobject 5 class array type int rank 0 items 2 data follows\n21\n22\nattribute \"dep\" string \"connections\"\nobject 6 class array type int rank 1 shape 2 items 6 data follows\n0 100\n1 99\n2 98\n3 97\n4 96\n5 95\nattribute \"dep\" string \"positions\"\nattribute \"unit\" number 4\nobject 7 class array type int rank 0 items 12 data follows\n0\n1\n2\n3\n4\n5\n6\n7\n8\n9\n10\n11\nattribute \"dep\" string \"data\"\nobject 8 class array type int rank 0 items 3 data follows\n1\n2\n3\nobject 9 class field\ncomponent \"data\" value 1\ncomponent \"positions\" value 2\ncomponent \"connections\" value 3\ncomponent \"faces\" value 4\ncomponent \"cells\" value 5\ncomponent \"place\" value 6\ncomponent \"beside\" value 7\ncomponent \"alone\" value 8\nattribute \"name\" string \"solid\"\nobject 10 class array type short rank 0 items 6 data follows\n-8\n-11\n-14\n-17\n-20\n-23\nobject 11 class gridpositions counts 1 3 2\norigin 6 -3 10\ndelta 1 2 3\ndelta 10 0 -1\ndelta 0 0 4\nattribute \"unit\" string \"m\"\nobject 12 class gridconnections counts 3 2\nattribute \"element type\" string \"quads\"\nattribute \"ref\" string \"positions\"\nobject 13 class array type unsigned byte rank 1 shape 2 items 2 data follows\n7 8\n7 8\nattribute \"dep\" string \"connections\"\nobject 14 class array type int rank 0 items 2 data follows\n21\n22\nattribute \"dep\" string \"connections\"\nobject 15 class array type int rank 1 shape 2 items 6 data follows\n6 94\n7 93\n8 92\n9 91\n10 90\n11 89\nattribute \"dep\" string \"positions\"\nattribute \"unit\" number 4\nobject 16 class array type int rank 0 items 12 data follows\n0\n1\n2\n3\n4\n5\n6\n7\n8\n9\n10\n11\nattribute \"dep\" string \"data\"\nobject 17 class array type int rank 0 items 3 data follows\n1\n2\n3\nobject 18 class field\ncomponent \"data\" value 10\ncomponent \"positions\" value 11\ncomponent \"connections\" value 12\ncomponent \"faces\" value 13\ncomponent \"cells\" value 14\ncomponent \"place\" value 15\ncomponent \"beside\" value 16\ncomponent \"alone\" value 17\nattribute \"name\" string \"solid\"\nobject 19 class series\nmember 0 position 0 value 9\nmember 1 position 1 value 18\nend\n",
    ),
    (
        VECTORS,
        [Given::Text("x"), Given::Number(1), NULL],
        "object 1 class gridpositions counts 1 3 2\norigin 1 0 0\ndelta 1 0 0\ndelta 0 1 0\ndelta 0 0 1\nobject 2 class gridconnections counts 3 2\nobject 3 class array type int rank 1 shape 4 items 6 data follows\n6 106 206 306\n7 107 207 307\n8 108 208 308\n9 109 209 309\n10 110 210 310\n11 111 211 311\nattribute \"dep\" string \"positions\"\nobject 4 class field\ncomponent \"positions\" value 1\ncomponent \"connections\" value 2\ncomponent \"data\" value 3\nend\n",
    ),
    (
        VECTORS,
        [Given::Text("y"), Given::Number(1), NULL],
        "object 1 class gridpositions counts 2 1 2\norigin 0 1 0\ndelta 1 0 0\ndelta 0 1 0\ndelta 0 0 1\nobject 2 class gridconnections counts 2 2\nobject 3 class array type int rank 1 shape 4 items 4 data follows\n2 102 202 302\n3 103 203 303\n8 108 208 308\n9 109 209 309\nattribute \"dep\" string \"positions\"\nobject 4 class field\ncomponent \"positions\" value 1\ncomponent \"connections\" value 2\ncomponent \"data\" value 3\nend\n",
    ),
    (
        VECTORS,
        [Given::Text("y"), Given::Number(1), Given::Number(1)],
        "object 1 class gridpositions counts 2 2 2\norigin 0 1 0\ndelta 1 0 0\ndelta 0 1 0\ndelta 0 0 1\nobject 2 class gridconnections counts 2 2 2\nobject 3 class array type int rank 1 shape 4 items 8 data follows\n2 102 202 302\n3 103 203 303\n4 104 204 304\n5 105 205 305\n8 108 208 308\n9 109 209 309\n10 110 210 310\n11 111 211 311\nattribute \"dep\" string \"positions\"\nobject 4 class field\ncomponent \"positions\" value 1\ncomponent \"connections\" value 2\ncomponent \"data\" value 3\nend\n",
    ),
    (
        VECTORS,
        [Given::Text("z"), Given::Number(1), NULL],
        "object 1 class gridpositions counts 2 3 1\norigin 0 0 1\ndelta 1 0 0\ndelta 0 1 0\ndelta 0 0 1\nobject 2 class gridconnections counts 2 3\nobject 3 class array type int rank 1 shape 4 items 6 data follows\n1 101 201 301\n3 103 203 303\n5 105 205 305\n7 107 207 307\n9 109 209 309\n11 111 211 311\nattribute \"dep\" string \"positions\"\nobject 4 class field\ncomponent \"positions\" value 1\ncomponent \"connections\" value 2\ncomponent \"data\" value 3\nend\n",
    ),
    (
        LINE,
        [Given::Number(0), Given::Number(0), Given::Number(0)],
        "object 1 class gridpositions counts 1 3 1\norigin 0 0 0\ndelta 1 0 0\ndelta 0 1 0\ndelta 0 0 1\nobject 2 class gridconnections counts 3\nobject 3 class array type int rank 0 items 2 data follows\n4\n5\nattribute \"dep\" string \"connections\"\nobject 4 class array type int rank 0 items 3 data follows\n1\n2\n3\nattribute \"dep\" string \"positions\"\nobject 5 class field\ncomponent \"positions\" value 1\ncomponent \"connections\" value 2\ncomponent \"data\" value 3\ncomponent \"at\" value 4\nend\n",
    ),
    (
        LINE,
        [Given::Text("y"), Given::Number(1), NULL],
        "object 1 class gridpositions counts 1 1 1\norigin 0 1 0\ndelta 1 0 0\ndelta 0 1 0\ndelta 0 0 1\nobject 2 class array type int rank 0 items 1 data follows\n2\nattribute \"dep\" string \"positions\"\nobject 3 class field\ncomponent \"positions\" value 1\ncomponent \"at\" value 2\nend\n",
    ),
    (
        LINE,
        [Given::Text("y"), Given::Number(2), NULL],
        "object 1 class gridpositions counts 1 1 1\norigin 0 2 0\ndelta 1 0 0\ndelta 0 1 0\ndelta 0 0 1\nobject 2 class array type int rank 0 items 1 data follows\n3\nattribute \"dep\" string \"positions\"\nobject 3 class field\ncomponent \"positions\" value 1\ncomponent \"at\" value 2\nend\n",
    ),
    (
        LINE,
        [Given::Text("y"), NULL, Given::Number(1)],
        "object 1 class gridpositions counts 1 2 1\norigin 0 0 0\ndelta 1 0 0\ndelta 0 1 0\ndelta 0 0 1\nobject 2 class gridconnections counts 2\nobject 3 class array type int rank 0 items 1 data follows\n4\nattribute \"dep\" string \"connections\"\nobject 4 class array type int rank 0 items 2 data follows\n1\n2\nattribute \"dep\" string \"positions\"\nobject 5 class field\ncomponent \"positions\" value 1\ncomponent \"connections\" value 2\ncomponent \"data\" value 3\ncomponent \"at\" value 4\nobject 6 class gridpositions counts 1 2 1\norigin 0 1 0\ndelta 1 0 0\ndelta 0 1 0\ndelta 0 0 1\nobject 7 class gridconnections counts 2\nobject 8 class array type int rank 0 items 1 data follows\n5\nattribute \"dep\" string \"connections\"\nobject 9 class array type int rank 0 items 2 data follows\n2\n3\nattribute \"dep\" string \"positions\"\nobject 10 class field\ncomponent \"positions\" value 6\ncomponent \"connections\" value 7\ncomponent \"data\" value 8\ncomponent \"at\" value 9\nobject 11 class series\nmember 0 position 0 value 5\nmember 1 position 1 value 10\nend\n",
    ),
    (
        LINE,
        [Given::Number(2), NULL, NULL],
        "object 1 class gridpositions counts 1 3 1\norigin 0 0 0\ndelta 1 0 0\ndelta 0 1 0\ndelta 0 0 1\nobject 2 class gridconnections counts 3\nobject 3 class array type int rank 0 items 2 data follows\n4\n5\nattribute \"dep\" string \"connections\"\nobject 4 class array type int rank 0 items 3 data follows\n1\n2\n3\nattribute \"dep\" string \"positions\"\nobject 5 class field\ncomponent \"positions\" value 1\ncomponent \"connections\" value 2\ncomponent \"data\" value 3\ncomponent \"at\" value 4\nobject 6 class series\nmember 0 position 0 value 5\nend\n",
    ),
    (
        POINT,
        [Given::Number(0), Given::Number(0), Given::Number(0)],
        "object 1 class gridpositions counts 1 1\norigin 3 4\ndelta 1 0\ndelta 0 1\nobject 2 class array type int rank 0 items 1 data follows\n9\nobject 3 class field\ncomponent \"positions\" value 1\ncomponent \"data\" value 2\nend\n",
    ),
    (
        POINT,
        [Given::Text("y"), NULL, NULL],
        "object 1 class gridpositions counts 1 1\norigin 3 4\ndelta 1 0\ndelta 0 1\nobject 2 class array type int rank 0 items 1 data follows\n9\nobject 3 class field\ncomponent \"positions\" value 1\ncomponent \"data\" value 2\nobject 4 class series\nmember 0 position 0 value 3\nend\n",
    ),
];

const REFUSED: [(&str, [Given<'static>; 3], &str); 26] = [
    (
        PLANE,
        [Given::Number(0), Given::Number(3), Given::Number(1)],
        "BadArgument",
    ),
    (
        PLANE,
        [NULL, Given::Number(0), Given::Number(0)],
        "BadArgument",
    ),
    (
        PLANE,
        [Given::Number(2), Given::Number(0), Given::Number(0)],
        "BadArgument",
    ),
    (
        PLANE,
        [Given::Text("z"), Given::Number(0), Given::Number(0)],
        "BadArgument",
    ),
    (
        PLANE,
        [Given::Number(-1), Given::Number(0), Given::Number(0)],
        "BadArgument",
    ),
    (
        PLANE,
        [Given::Text("w"), Given::Number(0), Given::Number(0)],
        "BadArgument",
    ),
    (
        PLANE,
        [Given::Text("xy"), Given::Number(0), Given::Number(0)],
        "BadArgument",
    ),
    (
        PLANE,
        [Given::Number(0), Given::Text("a"), Given::Number(0)],
        "BadArgument",
    ),
    (
        PLANE,
        [Given::Number(0), Given::Number(-1), Given::Number(0)],
        "BadArgument",
    ),
    (
        PLANE,
        [Given::Number(0), Given::Number(4), Given::Number(0)],
        "BadArgument",
    ),
    (
        PLANE,
        [Given::Number(0), Given::Number(0), Given::Number(-1)],
        "BadArgument",
    ),
    (
        PLANE,
        [Given::Number(0), Given::Number(0), Given::Text("a")],
        "BadArgument",
    ),
    (
        PLANE,
        [Given::Number(0), Given::Number(0), Given::Number(4)],
        "BadArgument",
    ),
    (
        PLANE,
        [Given::Number(1), NULL, Given::Number(3)],
        "BadArgument",
    ),
    (
        PLANE,
        [Given::Number(1), NULL, Given::Number(2147483647)],
        "BadArgument",
    ),
    (
        ODD,
        [Given::Number(0), Given::Number(0), Given::Number(0)],
        "BadField",
    ),
    (ODD, [NULL, Given::Number(0), Given::Number(0)], "BadField"),
    (
        REFERS,
        [Given::Number(0), Given::Number(0), Given::Number(0)],
        "NotRegular",
    ),
    (
        APART,
        [Given::Number(0), Given::Number(0), Given::Number(0)],
        "NotRegular",
    ),
    (SHORT, [NULL, NULL, NULL], "BadField"),
    (
        JOINED,
        [Given::Number(0), Given::Number(0), Given::Number(0)],
        "NotRegular",
    ),
    (LONG, [Given::Number(0), NULL, NULL], "TooLarge"),
    (
        LONG,
        [Given::Number(0), NULL, Given::Number(-1)],
        "BadArgument",
    ),
    (LONG, [Given::Number(1), NULL, NULL], "BadArgument"),
    (WIDE, [Given::Number(0), NULL, NULL], "TooLarge"),
    (
        WIDE,
        [Given::Number(0), Given::Number(0), Given::Number(1)],
        "TooLarge",
    ),
];

#[test]
fn slabs_are_cut(rt: HostRuntime) -> Result<(), Fail> {
    all_give(rt.alloc(), &SLABS)
}

#[test]
fn others_are_refused(rt: HostRuntime) -> Result<(), Fail> {
    all_give(rt.alloc(), &REFUSED)
}
