// A sheet read back: any text to the rows of a table, or to the first line that is none of a sheet's.
#![tactic(auto)]

ghost use Rattle.std.specs.Prelude.{cond, ◌≡◌, drop, length, replicate, ◌≤◌};
ghost use Rattle.std.proofs.Math.Option.{none, some};
ghost use Rattle.laws.specs.Loops.{placed};
ghost use Rattle.rules.specs.Limits.{most_nodes, most_frames};
ghost use Rattle.text.specs.Lines.{is_word, starts_with, whole_number, words};
ghost use Rattle.sheet.specs.Sheet.{dash};
ghost use Rattle.sheet.specs.Back as back;
ghost use Rattle.sheet.specs.Back.{forms_of, kind_of, may_stand, number_in, number_missing, numbers_in, read_back, read_sheet, up_to_most};
ghost use Rattle.sheetreader.specs.Memory.{Few, Gathered, Narrow, as_option, back_for, bytes_in, ended_with, laid, left_by, line_said, numbers_laid, said_of, taken_at, taken_with, with_said, words_said};

use records::kinds::head_kind;
use sheet::{Form, Kind};
use table::write::{table_length, write_table};
use text::lines::{behind, behind_end, comment_start, is_word, line_end, next_word, whole_number};
use units::{Frame, NodeNo, TaskNo, Ticks};

// The most words that a line may have behind its first.
const WORDS: usize = 10;

// The places of the numbers that are taken: of a cycle's line, and of a row's.
const PERIOD: usize = 0;

const EDITION: usize = 1;

const NODE: usize = 0;

const TASK: usize = 1;

const DEADLINE: usize = 3;

const START: usize = 4;

const STOP: usize = 5;

// The forms of the numbers that are taken: of a node, of a task and of a time.
const NODE_NUMBER: Form = Form::Most(255);

const TASK_NUMBER: Form = Form::Most(255);

const TIME: Form = Form::Most(4294967295);

// A number that only tells.
const TOLD: Form = Form::Most(u64::MAX);

// What was read so far, but for the numbers of the rows, which stand in arrays: how far the sheet has come (0: nothing; 1: a refusal; 2: the
// cycle), the edition, the cycle, and how many rows there are.
#[derive(Clone, Copy, Default)]
struct Held {
    stage: u8,
    consumers: bool,
    period: Ticks,
    controls: usize,
    rows: usize,
}

// ---- words

#[tactic(auto, unfolding(sheet::specs::Back::kind_of))]
fn kind_of(word: &[u8]) -> Kind
    ensures { result ≡ kind_of word.now }
{
    if is_word(word, b"data") {
        return Kind::Data;
    }
    if is_word(word, b"control") {
        return Kind::Control;
    }
    if is_word(word, b"cycle") {
        return Kind::Cycle;
    }
    if is_word(word, b"refused") {
        return Kind::Refused;
    }
    Kind::Other
}

// The forms of the words behind the first.
fn forms_of(kind: Kind) -> &'static [Form]
    ensures { result.now ≡ forms_of kind }
{
    match kind {
        Kind::Refused => &[TOLD, Form::At, TOLD],
        Kind::Cycle => &[TIME, Form::Consumers],
        Kind::Control => &[
            NODE_NUMBER,
            Form::Dash,
            Form::Dash,
            Form::Dash,
            TIME,
            TIME,
            TOLD,
            TOLD,
            Form::Dash,
            Form::Dash,
        ],
        Kind::Data => &[
            TOLD,
            TASK_NUMBER,
            TOLD,
            TIME,
            TIME,
            TIME,
            TOLD,
            TOLD,
            Form::Signed,
            Form::Signed,
        ],
        Kind::Other => &[],
    }
}

fn literal(word: &[u8], wanted: &[u8], counts: u64) -> Option<u64>
    ensures { as_option result ≡ cond (is_word wanted.now word.now) (some counts) none }
{
    is_word(word, wanted).then_some(counts)
}

fn up_to(most: u64, number: Option<u64>) -> Option<u64>
    ensures { as_option result ≡ up_to_most most number }
{
    number.filter(|n| *n <= most)
}

// A number with or without `-` in front.
fn unsigned(word: &[u8]) -> Option<u64>
    ensures { result ≡ whole_number (cond (starts_with dash word.now) (drop 1 word.now) word.now) }
{
    match behind(word, 0, b"-") {
        Some(_) => whole_number(&word[1..]),
        None => whole_number(word),
    }
}

// The number that a word says, if it has the form; where the form says none, 0, and 1 for the word of the edition.
#[tactic(auto, unfolding(sheet::specs::Back::number_in))]
fn number_in(form: Form, word: &[u8]) -> Option<u64>
    ensures { as_option result ≡ number_in form word.now }
{
    match form {
        Form::Dash => literal(word, b"-", 0),
        Form::At => literal(word, b"at", 0),
        Form::Most(most) => up_to(most, whole_number(word)),
        Form::Signed => up_to(u64::MAX, unsigned(word)),
        Form::Consumers => literal(word, b"consumers", 1),
        Form::End => None,
    }
}

// ---- lines

// A number that a word said, and the place behind the word.
#[derive(Clone, Copy)]
struct Taken {
    value: u64,
    next: usize,
}

// Where no word is left: only that of the edition may be missing.
fn missing(form: Form, at: usize) -> Option<Taken>
    ensures { result ≡ taken_with (number_missing form) at }
{
    match form {
        Form::Consumers => Some(Taken { value: 0, next: at }),
        Form::Dash | Form::At | Form::Most(_) | Form::Signed | Form::End => None,
    }
}

// What the word from a place on says, if it has the form.
fn number_at(s: &[u8], at: usize, form: Form) -> Option<Taken>
    ensures { result ≡ taken_at s.now at form }
{
    let Some(word) = next_word(s, at) else {
        return missing(form, at);
    };
    let value = number_in(form, &s[word.from..word.to])?;
    Some(Taken {
        value,
        next: word.to,
    })
}

// The numbers, where no word stands behind them.
fn ended(s: &[u8], at: usize, values: [u64; WORDS]) -> Option<[u64; WORDS]>
    ensures { result ≡ ended_with (words (drop at s.now)) values }
{
    match next_word(s, at) {
        None => Some(values),
        Some(_) => None,
    }
}

// The numbers of a line's words behind the first, zeros behind them, if the words have their forms.
fn numbers_from(s: &[u8], at: usize, kind: Kind) -> Option<[u64; WORDS]>
    ensures { result ≡ numbers_laid (numbers_in (forms_of kind) (words (drop at s.now))) }
{
    let forms = forms_of(kind);
    let mut values: [u64; WORDS] = [0; WORDS];
    let mut next = at;
    for (k, form) in forms.iter().enumerate() {
        let taken = number_at(s, next, *form)?;
        values[k] = taken.value;
        next = taken.next;
    }
    ended(s, next, values)
}

#[tactic(auto, unfolding(sheet::specs::Back::may_stand))]
fn may_stand(kind: Kind, held: Held) -> bool
    ensures { result ≡ may_stand kind held.stage held.controls held.rows }
{
    match kind {
        Kind::Refused => held.stage == 0,
        Kind::Cycle => held.stage < 2,
        Kind::Control => held.stage == 2 && (held.rows == 0 && held.controls < NodeNo::MOST),
        Kind::Data => held.stage == 2 && held.rows < Frame::MOST,
        Kind::Other => false,
    }
}

// What a line says that can be read, where it may stand.
#[derive(Clone, Copy)]
enum Said {
    Blank,
    Refusal,
    Cycle {
        consumers: bool,
        period: Ticks,
    },
    Control {
        node: NodeNo,
        start: Ticks,
        stop: Ticks,
    },
    Data {
        task: TaskNo,
        deadline: Ticks,
        start: Ticks,
        stop: Ticks,
    },
}

// A line of a kind whose numbers were read. Those that are taken are as small as their forms ask, so that no cast cuts anything off.
fn said_by(kind: Kind, values: [u64; WORDS]) -> Option<Said>
    requires { Narrow kind values }
    ensures { result ≡ said_of kind (some values) }
{
    let said = match kind {
        Kind::Refused => Said::Refusal,
        Kind::Cycle => Said::Cycle {
            consumers: values[EDITION] == 1,
            period: Ticks(values[PERIOD] as u32),
        },
        Kind::Control => Said::Control {
            node: NodeNo(values[NODE] as u8),
            start: Ticks(values[START] as u32),
            stop: Ticks(values[STOP] as u32),
        },
        Kind::Data => Said::Data {
            task: TaskNo(values[TASK] as u8),
            deadline: Ticks(values[DEADLINE] as u32),
            start: Ticks(values[START] as u32),
            stop: Ticks(values[STOP] as u32),
        },
        Kind::Other => return None,
    };
    Some(said)
}

// What a line of a kind says that has its other words from a place on.
fn kind_said(kind: Kind, s: &[u8], at: usize) -> Option<Said>
    ensures { result ≡ said_of kind (numbers_in (forms_of kind) (words (drop at s.now))) }
{
    let values = numbers_from(s, at, kind)?;
    said_by(kind, values)
}

fn words_said(s: &[u8], held: Held) -> Option<Said>
    ensures { result ≡ words_said held.stage held.controls held.rows (words s.now) }
{
    let Some(word) = next_word(s, 0) else {
        return Some(Said::Blank);
    };
    let kind = kind_of(&s[word.from..word.to]);
    if may_stand(kind, held) {
        kind_said(kind, s, word.to)
    } else {
        None
    }
}

// What a line says behind what was read so far: its comment is left out.
fn line_said(line: &[u8], held: Held) -> Option<Said>
    ensures { result ≡ line_said held.stage held.controls held.rows line.now }
{
    let end = comment_start(line);
    words_said(&line[..end], held)
}

// ---- the whole text

fn take_control(
    k: usize,
    node: NodeNo,
    start: Ticks,
    stop: Ticks,
    nodes: &mut [u8; NodeNo::MOST],
    starts: &mut [u32; NodeNo::MOST],
    stops: &mut [u32; NodeNo::MOST],
)
    ensures nodes_after { nodes.new ≡ placed most_nodes nodes.old k node.0 }
    ensures starts_after { starts.new ≡ placed most_nodes starts.old k start.0 }
    ensures stops_after { stops.new ≡ placed most_nodes stops.old k stop.0 }
{
    if k < NodeNo::MOST {
        nodes[k] = node.0;
        starts[k] = start.0;
        stops[k] = stop.0;
    }
}

fn take_data(
    k: usize,
    task: TaskNo,
    deadline: Ticks,
    start: Ticks,
    stop: Ticks,
    tasks: &mut [u8; Frame::MOST],
    deadlines: &mut [u32; Frame::MOST],
    starts: &mut [u32; Frame::MOST],
    stops: &mut [u32; Frame::MOST],
)
    ensures tasks_after { tasks.new ≡ placed most_frames tasks.old k task.0 }
    ensures deadlines_after { deadlines.new ≡ placed most_frames deadlines.old k deadline.0 }
    ensures starts_after { starts.new ≡ placed most_frames starts.old k start.0 }
    ensures stops_after { stops.new ≡ placed most_frames stops.old k stop.0 }
{
    if k < Frame::MOST {
        tasks[k] = task.0;
        deadlines[k] = deadline.0;
        starts[k] = start.0;
        stops[k] = stop.0;
    }
}

// What is held with a line more; the numbers of its row go to the lent arrays.
fn take(
    said: Said,
    mut held: Held,
    control_nodes: &mut [u8; NodeNo::MOST],
    control_starts: &mut [u32; NodeNo::MOST],
    control_stops: &mut [u32; NodeNo::MOST],
    tasks: &mut [u8; Frame::MOST],
    deadlines: &mut [u32; Frame::MOST],
    starts: &mut [u32; Frame::MOST],
    stops: &mut [u32; Frame::MOST],
) -> Held
    requires { Few held }
    ensures { laid result control_nodes.new control_starts.new control_stops.new tasks.new deadlines.new starts.new stops.new
        ≡ with_said said (laid held control_nodes.old control_starts.old control_stops.old tasks.old deadlines.old starts.old stops.old) }
{
    match said {
        Said::Blank => {}
        Said::Refusal => {
            held.stage = 1;
        }
        Said::Cycle { consumers, period } => {
            held.stage = 2;
            held.consumers = consumers;
            held.period = period;
        }
        Said::Control { node, start, stop } => {
            take_control(
                held.controls,
                node,
                start,
                stop,
                control_nodes,
                control_starts,
                control_stops,
            );
            held.controls += 1;
        }
        Said::Data {
            task,
            deadline,
            start,
            stop,
        } => {
            take_data(
                held.rows, task, deadline, start, stop, tasks, deadlines, starts, stops,
            );
            held.rows += 1;
        }
    }
    held
}

// Why there is no table: the first line that cannot be read, or how many bytes the table needs, where fewer are lent.
#[derive(Clone, Copy)]
pub enum NoTable {
    Unreadable(u64),
    Needs(usize),
}

// Line by line; the numbers of the rows go to the lent arrays, which are zeros before.
fn gather(
    text: &[u8],
    control_nodes: &mut [u8; NodeNo::MOST],
    control_starts: &mut [u32; NodeNo::MOST],
    control_stops: &mut [u32; NodeNo::MOST],
    tasks: &mut [u8; Frame::MOST],
    deadlines: &mut [u32; Frame::MOST],
    starts: &mut [u32; Frame::MOST],
    stops: &mut [u32; Frame::MOST],
) -> Result<Held, NoTable>
    requires control_nodes_value { control_nodes.old ≡ replicate most_nodes 0 }
    requires control_starts_value { control_starts.old ≡ replicate most_nodes 0 }
    requires control_stops_value { control_stops.old ≡ replicate most_nodes 0 }
    requires tasks_value { tasks.old ≡ replicate most_frames 0 }
    requires deadlines_value { deadlines.old ≡ replicate most_frames 0 }
    requires starts_value { starts.old ≡ replicate most_frames 0 }
    requires stops_value { stops.old ≡ replicate most_frames 0 }
    ensures { Gathered result control_nodes.new control_starts.new control_stops.new tasks.new deadlines.new starts.new stops.new (read_sheet text.now) }
{
    let mut held = Held::default();
    let mut at = 0;
    let mut line: u64 = 0;
    while at < text.len() {
        let end = line_end(text, at);
        line += 1;
        let Some(said) = line_said(&text[at..end], held) else {
            return Err(NoTable::Unreadable(line));
        };
        held = take(
            said,
            held,
            control_nodes,
            control_starts,
            control_stops,
            tasks,
            deadlines,
            starts,
            stops,
        );
        at = behind_end(text, end);
    }
    if held.stage == 2 {
        return Ok(held);
    }
    // The cycle is missing behind the last line.
    Err(NoTable::Unreadable(line + 1))
}

// The table of what was read, if there is room for it.
fn written<'a>(
    table: &mut [u8],
    held: Held,
    control_nodes: &'a [u8; NodeNo::MOST],
    control_starts: &'a [u32; NodeNo::MOST],
    control_stops: &'a [u32; NodeNo::MOST],
    tasks: &'a [u8; Frame::MOST],
    deadlines: &'a [u32; Frame::MOST],
    starts: &'a [u32; Frame::MOST],
    stops: &'a [u32; Frame::MOST],
) -> Result<usize, NoTable>
    requires { Few held }
    ensures value { result ≡ back_for (back.table (bytes_in (laid held control_nodes.now control_starts.now control_stops.now tasks.now deadlines.now starts.now stops.now))) table.old }
    ensures table_after { table.new ≡ left_by (back.table (bytes_in (laid held control_nodes.now control_starts.now control_stops.now tasks.now deadlines.now starts.now stops.now))) table.old }
{
    let needed = table_length(held.controls, held.rows);
    if table.len() < needed {
        return Err(NoTable::Needs(needed));
    }
    write_table(
        table,
        head_kind(held.consumers),
        held.period,
        control_nodes,
        control_starts,
        control_stops,
        held.controls,
        tasks,
        deadlines,
        starts,
        stops,
        held.rows,
    );
    Ok(needed)
}

// The length of the table that stands at the front of the lent bytes; where there is none, they are as they were.
pub fn read_back(text: &[u8], table: &mut [u8]) -> Result<usize, NoTable>
    ensures value { result ≡ back_for (read_back text.now) table.old }
    ensures table_after { table.new ≡ left_by (read_back text.now) table.old }
{
    let mut control_nodes: [u8; NodeNo::MOST] = [0; NodeNo::MOST];
    let mut control_starts: [u32; NodeNo::MOST] = [0; NodeNo::MOST];
    let mut control_stops: [u32; NodeNo::MOST] = [0; NodeNo::MOST];
    let mut tasks: [u8; Frame::MOST] = [0; Frame::MOST];
    let mut deadlines: [u32; Frame::MOST] = [0; Frame::MOST];
    let mut starts: [u32; Frame::MOST] = [0; Frame::MOST];
    let mut stops: [u32; Frame::MOST] = [0; Frame::MOST];
    let held = gather(
        text,
        &mut control_nodes,
        &mut control_starts,
        &mut control_stops,
        &mut tasks,
        &mut deadlines,
        &mut starts,
        &mut stops,
    )?;
    written(
        table,
        held,
        &control_nodes,
        &control_starts,
        &control_stops,
        &tasks,
        &deadlines,
        &starts,
        &stops,
    )
}
