//! What was written reads back: each canonical text means an object whose canonical text it is.
use crate::answer::means;
use std::test::Fail;

#[test]
fn canonical_texts_read_back(rt: HostRuntime) -> Result<(), Fail> {
    for text in [
        "object 1 class gridpositions counts 4 3\norigin 0 0\ndelta 1 0\ndelta 0 1\nobject 2 class gridconnections counts 4 3\nattribute \"element type\" string \"quads\"\nattribute \"ref\" string \"positions\"\nobject 3 class array type int rank 0 items 3 data follows\n1\n-2\n3\nattribute \"dep\" string \"positions\"\nobject 4 class field\ncomponent \"positions\" value 1\ncomponent \"connections\" value 2\ncomponent \"data\" value 3\nend\n",
        "object 1 class constantarray type short rank 1 shape 2 items 5 data follows\n7 -8\nobject 2 class regulararray type unsigned int rank 0 items 0\norigin -1\ndelta 2\nobject 3 class array type signed byte rank 2 shape 1 2 items 2 data follows\n1 2\n3 4\nobject 4 class group\nmember 0 value 1\nmember \"r\\\"\" value 2\nmember 2 value 3\nend\n",
        "object 1 class string \"a\\\\\\né\"\nobject 2 class string \"a\\\\\\né\"\nobject 3 class array type short rank 0 items 1 data follows\n6\nobject 4 class series\nmember 0 position -3 value 1\nmember 1 position 4 value 2\nattribute \"n\" number -5\nattribute \"s\" value 3\nend\n",
        "object 1 class field\nobject 2 class compositefield\nmember \"m\" value 1\nend\n",
        "object 1 class field\nobject 2 class group\nmember \"m\" value 1\nend\n",
        "object 1 class array type unsigned byte rank 0 items 0 data follows\nend\n",
        "object 1 class string \"\"\nattribute \"\" string \"\"\nend\n",
        "object 1 class gridpositions counts 1\norigin -2147483648\ndelta 2147483647\nend\n",
        "object 1 class constantarray type int rank 0 items 0 data follows\n2147483647\nend\n",
        "object 1 class string \"x\"\nattribute \"y\" number 0\nobject 2 class group\nattribute \"a\" value 1\nend\n",
    ] {
        assert!(rt;
            means(rt.alloc(), text.as_bytes(), text.as_bytes())?,
            "{text}"
        );
    }
    Ok(())
}
