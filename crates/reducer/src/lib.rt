// The entries for C: each returns 0 or document 01's number, and leaves what it answers beside it at a place that is lent.
// The C interface lends a graph's numbers and slices one by one. Each entry makes its `Lent` of them where it is used: a function for that is no
// plainer, since its contract would tell of every field, and every proof here would cite it.
#![tactic(auto)]

ghost use Rattle.std.specs.Prelude.{◌≡◌, ◌*◌, [], ◌∷◌, length, get_or, take, drop};
ghost use Rattle.graph.specs.Graph.{graph_of};
ghost use Rattle.graph.specs.Count.{C};
ghost use Rattle.graph.specs.Admission.{admission_number};
ghost use Rattle.graph.specs.Answer.{accepted, unless, ScratchKept};
ghost use Rattle.graph.specs.Literals.{before, graph_before, graph_in, literals};
ghost use Rattle.file_checks.specs.File.{field_number, field_payload};
ghost use Rattle.tagged_file.specs.Load.{load_call};
ghost use Rattle.tagged_file.specs.Write.{write_call};
ghost use Rattle.aiger.specs.Import.{import_call};
ghost use Rattle.aiger.specs.Export.{export_call};
ghost use Rattle.join.specs.Join.{join_call};
ghost use Rattle.evaluation.specs.Evaluation.{evaluate_number, results_after};
ghost use Rattle.assignment.specs.Assignment.{assignment_call};
ghost use Rattle.moves.specs.Call.{node_call, pair_call, tree_call, trial_call};
ghost use Rattle.preview.specs.Preview.{preview_answer, preview_bytes};
ghost use Rattle.resistive.specs.Resistive.{resistive_call};
ghost use Rattle.many.specs.Many.{many_call};
ghost use Rattle.rounds.specs.Settle.{settle_call};
ghost use Rattle.compare.specs.Compare.{compare_call};
ghost use Rattle.hidden.specs.Truth.{triple};
ghost use Rattle.hidden.specs.Call.{nodes_after_answer, majority_call, find_call};
ghost use Rattle.class_figures.specs.Call.{class_call, figures_call};
ghost use Rattle.answers.specs.Told.{told, told_one, told_signed, told_gain};
ghost use Rattle.promises.specs.Demand.{with_locks, left};
ghost use Rattle.replay.specs.Replay.{lent, decode, replay_call, answers_after, DemandMet};
ghost use Rattle.reducer.specs.Interface.{field_answer, SavingLeft, GainLeft, GraphLeft, TextLeft, FoundLeft, ClassLeft, FiguresLeft};

use graph::Lent;
use graph::table::Table;

// Where the payload of the field at the front starts, and its length.
#[unsafe(no_mangle)]
pub extern "C" fn reducer_field(bytes: &[u8], payload: &mut [usize; 2]) -> u32
    ensures answer { (result ≡ field_number (before bytes)) × (payload.new ≡ told (field_answer (before bytes)) payload.old) }
    ensures stretch { result ≡ 0 → take (get_or payload.new 1 0) (drop (get_or payload.new 0 0) (before bytes)) ≡ field_payload (before bytes) }
{
    let number = answers::told::refusal_number(&tagged_file::check_field(bytes));
    *payload = answers::told::field_told(number, tagged_file::field(bytes).len(), *payload);
    number
}

// Fills the tables and the locks, and `numbers` with I, N and O.
#[unsafe(no_mangle)]
pub extern "C" fn reducer_load(
    file: &[u8],
    node_table: &mut [u32],
    node_bits: &mut [u64],
    output_table: &mut [u32],
    output_bits: &mut [u64],
    locks: &mut [u8],
    numbers: &mut [u32; 3],
) -> u32
    ensures { let ns = literals node_table.old node_bits.old in
        let os = literals output_table.old output_bits.old in
        let o = load_call (before file) ns os locks.old in
        GraphLeft o result node_table node_bits output_table output_bits locks numbers }
{
    let answer = tagged_file::load(
        file,
        node_table,
        node_bits,
        output_table,
        output_bits,
        locks,
    );
    *numbers = answers::told::loaded_told(answer, *numbers);
    answers::told::refusal_number(&answer)
}

// Fills the tables from ASCII AIGER, frees every node, and fills `numbers` with I, N and O.
#[unsafe(no_mangle)]
pub extern "C" fn reducer_import(
    text: &[u8],
    node_table: &mut [u32],
    node_bits: &mut [u64],
    output_table: &mut [u32],
    output_bits: &mut [u64],
    locks: &mut [u8],
    numbers: &mut [u32; 3],
) -> u32
    ensures { let ns = literals node_table.old node_bits.old in
        let os = literals output_table.old output_bits.old in
        let o = import_call (before text) ns os locks.old in
        GraphLeft o result node_table node_bits output_table output_bits locks numbers }
{
    let answer = aiger_import::import(
        text,
        node_table,
        node_bits,
        output_table,
        output_bits,
        locks,
    );
    *numbers = answers::told::loaded_told(answer, *numbers);
    answers::told::refusal_number(&answer)
}

// Joins two graphs in the tables and locks of a third, output k of the first driving input k of the second, and fills `numbers` with its I, N and O.
#[unsafe(no_mangle)]
pub extern "C" fn reducer_join(
    inputs: u32,
    nodes: u32,
    outputs: u32,
    node_table: &[u32],
    node_bits: &[u64],
    output_table: &[u32],
    output_bits: &[u64],
    locks: &[u8],
    second_inputs: u32,
    second_nodes: u32,
    second_outputs: u32,
    second_node_table: &[u32],
    second_node_bits: &[u64],
    second_output_table: &[u32],
    second_output_bits: &[u64],
    second_locks: &[u8],
    joined_node_table: &mut [u32],
    joined_node_bits: &mut [u64],
    joined_output_table: &mut [u32],
    joined_output_bits: &mut [u64],
    joined_locks: &mut [u8],
    numbers: &mut [u32; 3],
) -> u32
    ensures { let g = graph_before inputs nodes outputs node_table node_bits output_table output_bits in
        let h = graph_before second_inputs second_nodes second_outputs second_node_table second_node_bits second_output_table second_output_bits in
        let ns = literals joined_node_table.old joined_node_bits.old in
        let os = literals joined_output_table.old joined_output_bits.old in
        let o = join_call g (before locks) h (before second_locks) ns os joined_locks.old in
        GraphLeft o result joined_node_table joined_node_bits joined_output_table joined_output_bits joined_locks numbers }
{
    let answer = join::join(
        &Lent {
            inputs,
            nodes,
            outputs,
            node_table: Table {
                indices: node_table,
                bits: node_bits,
            },
            output_table: Table {
                indices: output_table,
                bits: output_bits,
            },
            locks,
        },
        &Lent {
            inputs: second_inputs,
            nodes: second_nodes,
            outputs: second_outputs,
            node_table: Table {
                indices: second_node_table,
                bits: second_node_bits,
            },
            output_table: Table {
                indices: second_output_table,
                bits: second_output_bits,
            },
            locks: second_locks,
        },
        joined_node_table,
        joined_node_bits,
        joined_output_table,
        joined_output_bits,
        joined_locks,
    );
    *numbers = answers::told::loaded_told(answer, *numbers);
    answers::told::refusal_number(&answer)
}

// Fills the front of `buffer` with the graph's file.
#[unsafe(no_mangle)]
pub extern "C" fn reducer_write(
    inputs: u32,
    nodes: u32,
    outputs: u32,
    node_table: &[u32],
    node_bits: &[u64],
    output_table: &[u32],
    output_bits: &[u64],
    locks: &[u8],
    buffer: &mut [u8],
    length: &mut usize,
) -> u32
    ensures { let g = graph_before inputs nodes outputs node_table node_bits output_table output_bits in
        let o = write_call g (before locks) buffer.old in
        TextLeft o result buffer length }
{
    let answer = tagged_file::write(
        &Lent {
            inputs,
            nodes,
            outputs,
            node_table: Table {
                indices: node_table,
                bits: node_bits,
            },
            output_table: Table {
                indices: output_table,
                bits: output_bits,
            },
            locks,
        },
        buffer,
    );
    *length = answers::told::written_told(answer, *length);
    answers::told::refusal_number(&answer)
}

// Fills the front of `buffer` with the graph's ASCII AIGER text.
#[unsafe(no_mangle)]
pub extern "C" fn reducer_export(
    inputs: u32,
    nodes: u32,
    outputs: u32,
    node_table: &[u32],
    node_bits: &[u64],
    output_table: &[u32],
    output_bits: &[u64],
    locks: &[u8],
    scratch: &mut [u32],
    buffer: &mut [u8],
    length: &mut usize,
) -> u32
    ensures text { let g = graph_before inputs nodes outputs node_table node_bits output_table output_bits in
        let o = export_call g (before locks) scratch.old buffer.old in
        TextLeft o result buffer length }
    ensures scratch { let g = graph_before inputs nodes outputs node_table node_bits output_table output_bits in
        let o = export_call g (before locks) scratch.old buffer.old in
        ScratchKept o.answer scratch.old scratch.new }
{
    let answer = aiger_export::export(
        &Lent {
            inputs,
            nodes,
            outputs,
            node_table: Table {
                indices: node_table,
                bits: node_bits,
            },
            output_table: Table {
                indices: output_table,
                bits: output_bits,
            },
            locks,
        },
        scratch,
        buffer,
    );
    *length = answers::told::written_told(answer, *length);
    answers::told::refusal_number(&answer)
}

// Fills the first `outputs` words of `results`, each bit place an assignment of its own.
#[unsafe(no_mangle)]
pub extern "C" fn reducer_evaluate(
    inputs: u32,
    nodes: u32,
    outputs: u32,
    node_table: &[u32],
    node_bits: &[u64],
    output_table: &[u32],
    output_bits: &[u64],
    locks: &[u8],
    input_words: &[u64],
    scratch: &mut [u64],
    results: &mut [u64],
) -> u32
    ensures answer { let g = graph_before inputs nodes outputs node_table node_bits output_table output_bits in
        result ≡ evaluate_number g (before locks) (length (before input_words)) (length scratch.old) (length results.old) }
    ensures results { let g = graph_before inputs nodes outputs node_table node_bits output_table output_bits in
        results.new ≡ results_after g (before locks) (before input_words) (length scratch.old) results.old }
    ensures scratch { let g = graph_before inputs nodes outputs node_table node_bits output_table output_bits in
        ScratchKept (unless (evaluate_number g (before locks) (length (before input_words)) (length scratch.old) (length results.old)) (accepted []))
        scratch.old scratch.new }
{
    let answer = evaluation::evaluate(
        &Lent {
            inputs,
            nodes,
            outputs,
            node_table: Table {
                indices: node_table,
                bits: node_bits,
            },
            output_table: Table {
                indices: output_table,
                bits: output_bits,
            },
            locks,
        },
        input_words,
        scratch,
        results,
    );
    answers::told::refusal_number(&answer)
}

// The least assignment that gives the pattern `wanted`, a byte an output: 0, 1, or 2 for either. `found` is 1 and its number, or 0 and 0 where none does.
#[unsafe(no_mangle)]
pub extern "C" fn reducer_assignment(
    inputs: u32,
    nodes: u32,
    outputs: u32,
    node_table: &[u32],
    node_bits: &[u64],
    output_table: &[u32],
    output_bits: &[u64],
    locks: &[u8],
    wanted: &[u8],
    scratch: &mut [u64],
    found: &mut [u32; 2],
) -> u32
    ensures found { let g = graph_before inputs nodes outputs node_table node_bits output_table output_bits in
        let a = assignment_call g (before locks) (before wanted) (length scratch.old) in
        (result ≡ a.number) × (found.new ≡ told a found.old) }
    ensures scratch { let g = graph_before inputs nodes outputs node_table node_bits output_table output_bits in
        let a = assignment_call g (before locks) (before wanted) (length scratch.old) in
        ScratchKept a scratch.old scratch.new }
{
    let answer = assignment::find_assignment(
        &Lent {
            inputs,
            nodes,
            outputs,
            node_table: Table {
                indices: node_table,
                bits: node_bits,
            },
            output_table: Table {
                indices: output_table,
                bits: output_bits,
            },
            locks,
        },
        wanted,
        scratch,
    );
    *found = answers::told::assigned_told(answer, *found);
    answers::told::refusal_number(&answer)
}

// How many edges are complemented: document 01's C.
#[unsafe(no_mangle)]
pub extern "C" fn reducer_count(
    inputs: u32,
    nodes: u32,
    outputs: u32,
    node_table: &[u32],
    node_bits: &[u64],
    output_table: &[u32],
    output_bits: &[u64],
    locks: &[u8],
    count: &mut u32,
) -> u32
    ensures { let g = graph_before inputs nodes outputs node_table node_bits output_table output_bits in
        let a = unless (admission_number g (before locks)) (accepted (C g ∷ [])) in
        (result ≡ a.number) × (count.new ≡ told_one a count.old) }
{
    let answer = graph::complemented_edges(&Lent {
        inputs,
        nodes,
        outputs,
        node_table: Table {
            indices: node_table,
            bits: node_bits,
        },
        output_table: Table {
            indices: output_table,
            bits: output_bits,
        },
        locks,
    });
    *count = answers::told::count_told(answer, *count);
    answers::told::refusal_number(&answer)
}

// The best move of one node; `saving` is what it saves.
#[unsafe(no_mangle)]
pub extern "C" fn reducer_node(
    inputs: u32,
    nodes: u32,
    outputs: u32,
    node_table: &[u32],
    node_bits: &mut [u64],
    output_table: &[u32],
    output_bits: &mut [u64],
    locks: &[u8],
    node: u32,
    saving: &mut [i64; 2],
) -> u32
    ensures { let g = graph_in inputs nodes outputs node_table.now node_bits.old output_table.now output_bits.old in
        let k = graph_in inputs nodes outputs node_table.now node_bits.new output_table.now output_bits.new in
        let o = node_call g (before locks) node in
        SavingLeft o result k saving }
{
    let answer = node_call::node_call(
        inputs,
        nodes,
        outputs,
        node_table,
        node_bits,
        output_table,
        output_bits,
        locks,
        node,
    );
    *saving = answers::told::saving_told(answer, *saving);
    answers::told::refusal_number(&answer)
}

// The best moves of a node and of the node that one of its words, 1 to 3, names.
#[unsafe(no_mangle)]
pub extern "C" fn reducer_pair(
    inputs: u32,
    nodes: u32,
    outputs: u32,
    node_table: &[u32],
    node_bits: &mut [u64],
    output_table: &[u32],
    output_bits: &mut [u64],
    locks: &[u8],
    node: u32,
    word: u32,
    saving: &mut [i64; 2],
) -> u32
    ensures { let g = graph_in inputs nodes outputs node_table.now node_bits.old output_table.now output_bits.old in
        let k = graph_in inputs nodes outputs node_table.now node_bits.new output_table.now output_bits.new in
        let o = pair_call g (before locks) node word in
        SavingLeft o result k saving }
{
    let answer = node_call::pair_call(
        inputs,
        nodes,
        outputs,
        node_table,
        node_bits,
        output_table,
        output_bits,
        locks,
        node,
        word,
    );
    *saving = answers::told::saving_told(answer, *saving);
    answers::told::refusal_number(&answer)
}

// What a move at the node that a word names and a move at the node itself would save; nothing is changed.
#[unsafe(no_mangle)]
pub extern "C" fn reducer_trial(
    inputs: u32,
    nodes: u32,
    outputs: u32,
    node_table: &[u32],
    node_bits: &[u64],
    output_table: &[u32],
    output_bits: &[u64],
    locks: &[u8],
    node: u32,
    word: u32,
    named_move: u32,
    node_move: u32,
    gain: &mut i64,
) -> u32
    ensures { let g = graph_before inputs nodes outputs node_table node_bits output_table output_bits in
        let a = trial_call g (before locks) node word named_move node_move in
        (result ≡ a.number) × (gain.new ≡ told_gain a gain.old) }
{
    let answer = node_call::trial(
        &Lent {
            inputs,
            nodes,
            outputs,
            node_table: Table {
                indices: node_table,
                bits: node_bits,
            },
            output_table: Table {
                indices: output_table,
                bits: output_bits,
            },
            locks,
        },
        node,
        word,
        named_move,
        node_move,
    );
    let before = *gain;
    let after = answers::told::gain_told(answer, before);
    *gain = after;
    answers::told::refusal_number(&answer)
}

// All moves of the list or none: node `list[k]` with move `bytes[k]`. Fills `saving` with what they save, which may be below 0.
#[unsafe(no_mangle)]
pub extern "C" fn reducer_many(
    inputs: u32,
    nodes: u32,
    outputs: u32,
    node_table: &[u32],
    node_bits: &mut [u64],
    output_table: &[u32],
    output_bits: &mut [u64],
    locks: &[u8],
    list: &[u32],
    bytes: &[u8],
    saving: &mut i64,
) -> u32
    ensures { let g = graph_in inputs nodes outputs node_table.now node_bits.old output_table.now output_bits.old in
        let k = graph_in inputs nodes outputs node_table.now node_bits.new output_table.now output_bits.new in
        let o = many_call g (before locks) (before list) (before bytes) in
        GainLeft o result k saving }
{
    let answer = many::many(
        inputs,
        nodes,
        outputs,
        node_table,
        node_bits,
        output_table,
        output_bits,
        locks,
        list,
        bytes,
    );
    let before = *saving;
    let after = answers::told::gain_told(answer, before);
    *saving = after;
    answers::told::refusal_number(&answer)
}

// The best moves of the tree of a root.
#[unsafe(no_mangle)]
pub extern "C" fn reducer_tree(
    inputs: u32,
    nodes: u32,
    outputs: u32,
    node_table: &[u32],
    node_bits: &mut [u64],
    output_table: &[u32],
    output_bits: &mut [u64],
    locks: &[u8],
    root: u32,
    scratch: &mut [u32],
    saving: &mut [i64; 2],
) -> u32
    ensures saving { let g = graph_in inputs nodes outputs node_table.now node_bits.old output_table.now output_bits.old in
        let k = graph_in inputs nodes outputs node_table.now node_bits.new output_table.now output_bits.new in
        let o = tree_call g (before locks) (length scratch.old) root in
        SavingLeft o result k saving }
    ensures scratch { let g = graph_in inputs nodes outputs node_table.now node_bits.old output_table.now output_bits.old in
        let o = tree_call g (before locks) (length scratch.old) root in
        ScratchKept o.answer scratch.old scratch.new }
{
    let answer = tree_call::tree_call(
        inputs,
        nodes,
        outputs,
        node_table,
        node_bits,
        output_table,
        output_bits,
        locks,
        root,
        scratch,
    );
    *saving = answers::told::saving_told(answer, *saving);
    answers::told::refusal_number(&answer)
}

// The moves of the tree of a root that are best for resistive memory; `saving` may be below 0.
#[unsafe(no_mangle)]
pub extern "C" fn reducer_resistive(
    inputs: u32,
    nodes: u32,
    outputs: u32,
    node_table: &[u32],
    node_bits: &mut [u64],
    output_table: &[u32],
    output_bits: &mut [u64],
    locks: &[u8],
    root: u32,
    scratch: &mut [u32],
    saving: &mut [i64; 2],
) -> u32
    ensures saving { let g = graph_in inputs nodes outputs node_table.now node_bits.old output_table.now output_bits.old in
        let k = graph_in inputs nodes outputs node_table.now node_bits.new output_table.now output_bits.new in
        let o = resistive_call g (before locks) (length scratch.old) root in
        SavingLeft o result k saving }
    ensures scratch { let g = graph_in inputs nodes outputs node_table.now node_bits.old output_table.now output_bits.old in
        let o = resistive_call g (before locks) (length scratch.old) root in
        ScratchKept o.answer scratch.old scratch.new }
{
    let answer = resistive_call::resistive_call(
        inputs,
        nodes,
        outputs,
        node_table,
        node_bits,
        output_table,
        output_bits,
        locks,
        root,
        scratch,
    );
    *saving = answers::told::saving_told(answer, *saving);
    answers::told::refusal_number(&answer)
}

// What the tree call would save, and its moves a byte a node; the tables are only read.
#[unsafe(no_mangle)]
pub extern "C" fn reducer_preview(
    inputs: u32,
    nodes: u32,
    outputs: u32,
    node_table: &[u32],
    node_bits: &[u64],
    output_table: &[u32],
    output_bits: &[u64],
    locks: &[u8],
    root: u32,
    moves: &mut [u8],
    scratch: &mut [u32],
    saving: &mut [i64; 2],
) -> u32
    ensures saving { let g = graph_before inputs nodes outputs node_table node_bits output_table output_bits in
        let a = preview_answer g (before locks) (length moves.old) (length scratch.old) root in
        (result ≡ a.number) × (saving.new ≡ told_signed a saving.old) }
    ensures moves { let g = graph_before inputs nodes outputs node_table node_bits output_table output_bits in
        moves.new ≡ preview_bytes g (before locks) moves.old (length scratch.old) root }
    ensures scratch { let g = graph_before inputs nodes outputs node_table node_bits output_table output_bits in
        let a = preview_answer g (before locks) (length moves.old) (length scratch.old) root in
        ScratchKept a scratch.old scratch.new }
{
    let answer = preview::preview(
        &Lent {
            inputs,
            nodes,
            outputs,
            node_table: Table {
                indices: node_table,
                bits: node_bits,
            },
            output_table: Table {
                indices: output_table,
                bits: output_bits,
            },
            locks,
        },
        root,
        moves,
        scratch,
    );
    *saving = answers::told::saving_told(answer, *saving);
    answers::told::refusal_number(&answer)
}

// Rounds until one does not lower C; `figures` are the rounds made, C before and C after.
#[unsafe(no_mangle)]
pub extern "C" fn reducer_settle(
    inputs: u32,
    nodes: u32,
    outputs: u32,
    node_table: &[u32],
    node_bits: &mut [u64],
    output_table: &[u32],
    output_bits: &mut [u64],
    locks: &[u8],
    scratch: &mut [u32],
    figures: &mut [u32; 3],
    savings: &mut [i64; 2],
) -> u32
    ensures saving { let g = graph_in inputs nodes outputs node_table.now node_bits.old output_table.now output_bits.old in
        let k = graph_in inputs nodes outputs node_table.now node_bits.new output_table.now output_bits.new in
        let o = settle_call g (before locks) (length scratch.old) in
        SavingLeft o result k savings }
    ensures figures { let g = graph_in inputs nodes outputs node_table.now node_bits.old output_table.now output_bits.old in
        let o = settle_call g (before locks) (length scratch.old) in
        figures.new ≡ told o.answer figures.old }
    ensures scratch { let g = graph_in inputs nodes outputs node_table.now node_bits.old output_table.now output_bits.old in
        let o = settle_call g (before locks) (length scratch.old) in
        ScratchKept o.answer scratch.old scratch.new }
{
    let answer = settling::settle(
        inputs,
        nodes,
        outputs,
        node_table,
        node_bits,
        output_table,
        output_bits,
        locks,
        scratch,
    );
    *figures = answers::told::settled_told(answer, *figures);
    *savings = answers::told::settled_sums(answer, *savings);
    answers::told::refusal_number(&answer)
}

// Settles a graph and enters it into the record of a class, whose words lie in `book`; it tells what `reducer_settle` does.
#[unsafe(no_mangle)]
pub extern "C" fn reducer_class(
    inputs: u32,
    nodes: u32,
    outputs: u32,
    node_table: &[u32],
    node_bits: &mut [u64],
    output_table: &[u32],
    output_bits: &mut [u64],
    locks: &[u8],
    scratch: &mut [u32],
    book: &mut [u64],
    figures: &mut [u32; 3],
    savings: &mut [i64; 2],
) -> u32
    ensures call { let g = graph_in inputs nodes outputs node_table.now node_bits.old output_table.now output_bits.old in
        let k = graph_in inputs nodes outputs node_table.now node_bits.new output_table.now output_bits.new in
        let o = class_call book.old g (before locks) (length scratch.old) in
        ClassLeft o result k book figures savings }
    ensures scratch { let g = graph_in inputs nodes outputs node_table.now node_bits.old output_table.now output_bits.old in
        let o = class_call book.old g (before locks) (length scratch.old) in
        ScratchKept o.answer scratch.old scratch.new }
{
    let answer = class_figures::enter(
        inputs,
        nodes,
        outputs,
        node_table,
        node_bits,
        output_table,
        output_bits,
        locks,
        scratch,
        book,
    );
    *figures = answers::told::settled_told(answer, *figures);
    *savings = answers::told::settled_sums(answer, *savings);
    answers::told::refusal_number(&answer)
}

// The figures of all graphs of a class where `latest` is 0, and else of its latest sixteen: the count, C before and after, rounds, cells before and
// after. The improvement is the fall of C, and the total before.
#[unsafe(no_mangle)]
pub extern "C" fn reducer_class_figures(
    book: &[u64],
    latest: u32,
    figures: &mut [u64; 6],
    improvement: &mut [i64; 2],
) -> u32
    ensures { FiguresLeft (figures_call (before book) latest) result figures improvement }
{
    let answer = class_figures::figures(book, latest);
    *figures = answers::told::figures_told(answer, *figures);
    *improvement = answers::told::improvement_told(answer, *improvement);
    answers::told::refusal_number(&answer)
}

// Makes a node one majority of three lower indices where it is one; `answer` is 0 then, 1 for "not majority", 2 for "not covered".
#[unsafe(no_mangle)]
pub extern "C" fn reducer_majority(
    inputs: u32,
    nodes: u32,
    outputs: u32,
    node_table: &mut [u32],
    node_bits: &mut [u64],
    output_table: &[u32],
    output_bits: &[u64],
    locks: &[u8],
    node: u32,
    first: u32,
    second: u32,
    third: u32,
    scratch: &mut [u32],
    answer: &mut u32,
) -> u32
    ensures answer { let g = graph_in inputs nodes outputs node_table.old node_bits.old output_table.now output_bits.now in
        let k = graph_in inputs nodes outputs node_table.new node_bits.new output_table.now output_bits.now in
        let o = majority_call g (before locks) (length scratch.old) (triple first second third) node in
        (result ≡ o.answer.number) × (k ≡ o.graph) × (answer.new ≡ told_one o.answer answer.old) }
    ensures scratch { let g = graph_in inputs nodes outputs node_table.old node_bits.old output_table.now output_bits.now in
        let o = majority_call g (before locks) (length scratch.old) (triple first second third) node in
        ScratchKept o.answer scratch.old scratch.new }
{
    let became = majority_call::majority_call(
        inputs,
        nodes,
        outputs,
        node_table,
        node_bits,
        &Table {
            indices: output_table,
            bits: output_bits,
        },
        locks,
        node,
        first,
        second,
        third,
        scratch,
    );
    *answer = answers::told::majority_told(became, *answer);
    answers::told::refusal_number(&became)
}

// Finds hidden majorities, and drops what is not read then; `nodes_after` is the new number of nodes.
#[unsafe(no_mangle)]
pub extern "C" fn reducer_find(
    inputs: u32,
    nodes: u32,
    outputs: u32,
    node_table: &mut [u32],
    node_bits: &mut [u64],
    output_table: &mut [u32],
    output_bits: &mut [u64],
    locks: &mut [u8],
    scratch: &mut [u32],
    nodes_after: &mut u32,
) -> u32
    ensures graph { let g = graph_in inputs nodes outputs node_table.old node_bits.old output_table.old output_bits.old in
        let o = find_call g locks.old (length scratch.old) in
        let n = nodes_after_answer nodes o.answer in
        let k = graph_in inputs n outputs node_table.new node_bits.new output_table.new output_bits.new in
        FoundLeft o result k locks.new nodes_after.old nodes_after.new }
    ensures scratch { let g = graph_in inputs nodes outputs node_table.old node_bits.old output_table.old output_bits.old in
        let o = find_call g locks.old (length scratch.old) in
        ScratchKept o.answer scratch.old scratch.new }
{
    let answer = finder::find(
        inputs,
        nodes,
        outputs,
        node_table,
        node_bits,
        output_table,
        output_bits,
        locks,
        scratch,
    );
    *nodes_after = answers::told::found_told(answer, *nodes_after);
    answers::told::refusal_number(&answer)
}

// Loads the file and makes a list of calls on the loaded graph and its locks; `numbers` are the I, N and O that are left.
#[unsafe(no_mangle)]
pub extern "C" fn reducer_replay(
    file: &[u8],
    calls: &[u32],
    node_table: &mut [u32],
    node_bits: &mut [u64],
    output_table: &mut [u32],
    output_bits: &mut [u64],
    locks: &mut [u8],
    list: &[u32],
    bytes: &[u8],
    scratch: &mut [u32],
    answers: &mut [i64],
    numbers: &mut [u32; 3],
) -> u32
    ensures graph { let ns = literals node_table.old node_bits.old in
        let os = literals output_table.old output_bits.old in
        let l = lent scratch.old (before list) (before bytes) in
        let o = replay_call (before file) (before calls) l ns os locks.old (length answers.old) in
        GraphLeft o result node_table node_bits output_table output_bits locks numbers }
    ensures answers { let ns = literals node_table.old node_bits.old in
        let os = literals output_table.old output_bits.old in
        let l = lent scratch.old (before list) (before bytes) in
        answers.new ≡ answers_after (before file) (before calls) l ns os locks.old answers.old }
    ensures scratch { let ns = literals node_table.old node_bits.old in
        let os = literals output_table.old output_bits.old in
        let l = lent scratch.old (before list) (before bytes) in
        let o = replay_call (before file) (before calls) l ns os locks.old (length answers.old) in
        ScratchKept o.answer scratch.old scratch.new }
    ensures demand { let ns = literals node_table.old node_bits.old in
        let os = literals output_table.old output_bits.old in
        let l = lent scratch.old (before list) (before bytes) in
        let cs = decode l (before calls) in
        (result ≡ 0 → DemandMet (left (load_call (before file) ns os locks.old)) cs (with_locks (graph_of (get_or numbers.new 0 0) (get_or numbers.new 1 0) (get_or numbers.new 2 0) (literals node_table.new node_bits.new) (literals output_table.new output_bits.new)) locks.new) answers.new) }
{
    let answer = replay::replay(
        file,
        calls,
        node_table,
        node_bits,
        output_table,
        output_bits,
        locks,
        list,
        bytes,
        scratch,
        answers,
    );
    *numbers = replay::told::replayed_told(answer, *numbers);
    replay::told::replayed_number(answer)
}

// How a second graph differs from the first: the moves that lead to it, a byte a node, or what no moves explain. `difference` is 0 and 0 for
// the moves; 1 and 0, 1 or 2 where I, N or O differs; else what stands at a place differs, which is told after it: 2 for the index in the node
// table, 3 in the output table, 4 and 5 for the complement bit there.
#[unsafe(no_mangle)]
pub extern "C" fn reducer_compare(
    inputs: u32,
    nodes: u32,
    outputs: u32,
    node_table: &[u32],
    node_bits: &[u64],
    output_table: &[u32],
    output_bits: &[u64],
    locks: &[u8],
    second_inputs: u32,
    second_nodes: u32,
    second_outputs: u32,
    second_node_table: &[u32],
    second_node_bits: &[u64],
    second_output_table: &[u32],
    second_output_bits: &[u64],
    second_locks: &[u8],
    moves: &mut [u8],
    difference: &mut [u32; 2],
) -> u32
    ensures { let g = graph_before inputs nodes outputs node_table node_bits output_table output_bits in
        let h = graph_before second_inputs second_nodes second_outputs second_node_table second_node_bits second_output_table second_output_bits in
        let o = compare_call g (before locks) h (before second_locks) moves.old in
        (result ≡ o.answer.number) × (moves.new ≡ o.moves) × (difference.new ≡ told o.answer difference.old) }
{
    let answer = compare::compare(
        &Lent {
            inputs,
            nodes,
            outputs,
            node_table: Table {
                indices: node_table,
                bits: node_bits,
            },
            output_table: Table {
                indices: output_table,
                bits: output_bits,
            },
            locks,
        },
        &Lent {
            inputs: second_inputs,
            nodes: second_nodes,
            outputs: second_outputs,
            node_table: Table {
                indices: second_node_table,
                bits: second_node_bits,
            },
            output_table: Table {
                indices: second_output_table,
                bits: second_output_bits,
            },
            locks: second_locks,
        },
        moves,
    );
    *difference = answers::told::comparison_told(answer, *difference);
    answers::told::refusal_number(&answer)
}
