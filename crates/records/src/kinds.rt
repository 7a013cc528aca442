// The kinds of records: the lengths of their bodies (rules 2.2, 2.4) and the order in which they stand (2.5, 2.6).
ghost use Rattle.std.specs.Prelude.{◌≡◌, ◌&&◌, ◌||◌, eqb, leb};
ghost use Rattle.rules.specs.Records as rules;
ghost use Rattle.rules.specs.Records.{is_bus, plan_follows, head_kind, is_head, table_follows};
ghost use Rattle.records.specs.Kinds.{length_of, length_byte};

// Stands in the table for a kind that is unknown; no body is that long.
const UNKNOWN: u8 = 255;

// The kinds from here on are unknown.
const LISTED: u8 = fields::header::CONSUMERS_KIND + 1;

// The length of each kind's body. Of bytes, so that the compiler keeps the table as it is: one of words it stores anew for each look.
const LENGTHS: [u8; LISTED as usize] = [
    fields::end::LENGTH as u8,
    fields::bus::LENGTH as u8,
    fields::nodes::LENGTH as u8,
    fields::module::LENGTH as u8,
    fields::mode::LENGTH as u8,
    fields::task::LENGTH as u8,
    fields::invocation::LENGTH as u8,
    fields::connection::LENGTH as u8,
    UNKNOWN,
    fields::framed_bus::LENGTH as u8,
    UNKNOWN,
    UNKNOWN,
    UNKNOWN,
    UNKNOWN,
    UNKNOWN,
    UNKNOWN,
    fields::header::LENGTH as u8,
    fields::control_row::LENGTH as u8,
    fields::data_row::LENGTH as u8,
    UNKNOWN,
    fields::header::LENGTH as u8,
];

// What stands in the table for a kind.
fn length_byte(kind: u8) -> u8
    ensures { result ≡ length_byte kind }
{
    LENGTHS.get(usize::from(kind)).copied().unwrap_or(UNKNOWN)
}

// The length of a kind's body; an unknown kind has none.
pub fn body_length(kind: u8) -> Option<u8>
    ensures { result ≡ length_of kind }
{
    let length = length_byte(kind);
    if length == UNKNOWN {
        None
    } else {
        Some(length)
    }
}

#[tactic(auto, unfolding(crate::specs::Kinds::length_of))]
pub fn known(kind: u8) -> bool
    ensures { result ≡ rules.known kind }
{
    body_length(kind).is_some()
}

// Whether the file may end here, or a kind of `low` to `high` stands where none descends.
fn rises(previous: u8, kind: u8, low: u8, high: u8) -> bool
    ensures { result ≡ (eqb kind 0 || (leb low kind && (leb previous kind && leb kind high))) }
{
    kind == fields::end::KIND || low <= kind && previous <= kind && kind <= high
}

#[tactic(auto, unfolding(rules::specs::Records::is_bus))]
fn is_bus(kind: u8) -> bool
    ensures { result ≡ is_bus kind }
{
    matches!(kind, fields::bus::KIND | fields::framed_bus::KIND)
}

// Whether a kind may stand behind another in a plan; behind nothing where `previous` is 0.
#[tactic(auto, unfolding(rules::specs::Records::plan_follows))]
pub fn plan_follows(previous: u8, kind: u8) -> bool
    ensures { result ≡ plan_follows previous kind }
{
    if previous == 0 {
        is_bus(kind)
    } else if is_bus(previous) {
        kind == fields::nodes::KIND
    } else {
        rises(
            previous,
            kind,
            fields::module::KIND,
            fields::connection::KIND,
        )
    }
}

// The two heads of a table, of one edition each (rule 21.1).
#[tactic(auto, unfolding(rules::specs::Records::is_head, rules::specs::Records::head_kind))]
fn is_head(kind: u8) -> bool
    ensures { result ≡ is_head kind }
{
    matches!(kind, fields::header::KIND | fields::header::CONSUMERS_KIND)
}

// The kind of a table's head in an edition.
#[tactic(auto, unfolding(rules::specs::Records::head_kind))]
pub fn head_kind(consumers: bool) -> u8
    ensures { result ≡ head_kind consumers }
{
    if consumers {
        fields::header::CONSUMERS_KIND
    } else {
        fields::header::KIND
    }
}

// The same in a table.
#[tactic(auto, unfolding(rules::specs::Records::table_follows))]
pub fn table_follows(previous: u8, kind: u8) -> bool
    ensures { result ≡ table_follows previous kind }
{
    if previous == 0 {
        return is_head(kind);
    }
    // No row is below a head, also where its number is.
    let above = if is_head(previous) { 0 } else { previous };
    rises(
        above,
        kind,
        fields::control_row::KIND,
        fields::data_row::KIND,
    )
}
