// One word of a table: a literal, or the mark.
ghost use Rattle.std.specs.Prelude.{◌≡◌, ◌%◌, ◌≤◌, not, ◌&&◌, ◌==◌};
ghost use Rattle.graph.specs.Graph.{mark, index, turn};

pub const MARK: u32 = 4294967295;

pub fn index_of(x: u32) -> u32
    ensures { result ≡ index x }
{
    x / 2
}

// A literal turned t times.
pub fn turned(t: u32, x: u32) -> u32
    requires { t ≤ 2 }
    ensures { result ≡ turn t x }
{
    x / 2 * 2 + (x % 2 + t) % 2
}

// Whether the word x at place j of a node table is an edge: `is_edge` of a graph whose word j is x.
pub fn is_edge(j: usize, x: u32) -> bool
    ensures { result ≡ not (j % 3 == 2 && x == mark) }
{
    if j % 3 != 2 {
        return true;
    }
    x != MARK
}
