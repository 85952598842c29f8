// The public functions that a vector can name. Each reads the fields after the colon, calls, and prints what came of it. A lent table is filled with a
// number that no vector writes.
use crate::fault::Fault;
use crate::print;
use crate::read::{Fields, Tables};
use arena_sections::{Outcome, Sections};

// What stands in lent tables before the call.
const LENT_WORD: i32 = 9999;

const LENT_BYTE: u8 = 170;

const ARENA_BYTE: u8 = 85;

// Requests; space; room for offsets.
fn plan_requests(
    rt: &impl Print,
    mut fields: Fields<'_>,
    tables: &mut Tables,
) -> Result<(), Fault> {
    let requests = fields.words(&mut tables.first_words)?;
    let space = fields.number()?;
    let offsets = fields.lent(LENT_WORD, &mut tables.second_words)?;
    fields.end()?;
    print::answer(rt, greedy_planner::plan(requests, space, offsets))?;
    Ok(print::table(rt, "offsets", offsets)?)
}

// Requests; space; offsets.
fn inspect(rt: &impl Print, mut fields: Fields<'_>, tables: &mut Tables) -> Result<(), Fault> {
    let requests = fields.words(&mut tables.first_words)?;
    let space = fields.number()?;
    let offsets = fields.words(&mut tables.second_words)?;
    fields.end()?;
    Ok(print::answer(rt, plan_inspector::inspect(requests, space, offsets))?)
}

// Requests; space; offsets; accesses; arena length; room for byte answers.
fn run_script(rt: &impl Print, mut fields: Fields<'_>, tables: &mut Tables) -> Result<(), Fault> {
    let requests = fields.words(&mut tables.first_words)?;
    let space = fields.number()?;
    let offsets = fields.words(&mut tables.second_words)?;
    let accesses = fields.words(&mut tables.third_words)?;
    let arena = fields.lent(ARENA_BYTE, &mut tables.first_bytes)?;
    let bytes = fields.lent(LENT_BYTE, &mut tables.second_bytes)?;
    fields.end()?;
    print::answer(
        rt,
        access_script::run(requests, space, offsets, accesses, arena, bytes),
    )?;
    print::table(rt, "bytes", bytes)?;
    Ok(print::table(rt, "arena", arena)?)
}

// Operators; tensors; uses; room for lifetimes.
fn from_uses(rt: &impl Print, mut fields: Fields<'_>, tables: &mut Tables) -> Result<(), Fault> {
    let operators = fields.number()?;
    let tensors = fields.number()?;
    let uses = fields.words(&mut tables.first_words)?;
    let lifetimes = fields.lent(LENT_WORD, &mut tables.second_words)?;
    fields.end()?;
    print::answer(
        rt,
        tensor_lifetimes::from_uses(operators, tensors, uses, lifetimes),
    )?;
    Ok(print::table(rt, "lifetimes", lifetimes)?)
}

// A plan's bytes; tensors; room for offsets.
fn read_plan(rt: &impl Print, mut fields: Fields<'_>, tables: &mut Tables) -> Result<(), Fault> {
    let plan = fields.bytes(&mut tables.first_words, &mut tables.first_bytes)?;
    let tensors = fields.number()?;
    let offsets = fields.lent(LENT_WORD, &mut tables.second_words)?;
    fields.end()?;
    print::answer(rt, offline_plan::read(plan, tensors, offsets))?;
    Ok(print::table(rt, "offsets", offsets)?)
}

// Offsets; room for bytes.
fn write_plan(rt: &impl Print, mut fields: Fields<'_>, tables: &mut Tables) -> Result<(), Fault> {
    let offsets = fields.words(&mut tables.first_words)?;
    let bytes = fields.lent(LENT_BYTE, &mut tables.first_bytes)?;
    fields.end()?;
    print::answer(rt, offline_plan::write(offsets, bytes))?;
    Ok(print::table(rt, "bytes", bytes)?)
}

// A sheet's bytes; room for text.
fn reply_to(rt: &impl Print, mut fields: Fields<'_>, tables: &mut Tables) -> Result<(), Fault> {
    let sheet = fields.bytes(&mut tables.first_words, &mut tables.first_bytes)?;
    let text = fields.lent(LENT_BYTE, &mut tables.second_bytes)?;
    fields.end()?;
    print::reply(rt, request_sheet::reply(sheet, text))?;
    Ok(print::table(rt, "bytes", text)?)
}

// Dimensions; type code.
fn byte_size(rt: &impl Print, mut fields: Fields<'_>, tables: &mut Tables) -> Result<(), Fault> {
    let dimensions = fields.words(&mut tables.first_words)?;
    let type_code = fields.word()?;
    fields.end()?;
    Ok(print::answer(rt, tensor_sizes::byte_size(dimensions, type_code))?)
}

// Shapes; room for requests.
fn from_shapes(rt: &impl Print, mut fields: Fields<'_>, tables: &mut Tables) -> Result<(), Fault> {
    let shapes = fields.words(&mut tables.first_words)?;
    let requests = fields.lent(LENT_WORD, &mut tables.second_words)?;
    fields.end()?;
    print::answer(rt, shaped_requests::from_shapes(shapes, requests))?;
    Ok(print::table(rt, "requests", requests)?)
}

// Start; length.
fn open(rt: &impl Print, mut fields: Fields<'_>) -> Result<(), Fault> {
    let start = fields.long()?;
    let length = fields.long()?;
    fields.end()?;
    Ok(print::outcome(rt, Sections::open(start, length))?)
}

// An operation on a state of the sections. Head; temp; tail; usable; and two numbers, whether it takes them or not.
fn operate<F: FnOnce(Sections, u32, u32) -> Outcome>(
    rt: &impl Print,
    mut fields: Fields<'_>,
    operation: F,
) -> Result<(), Fault>
    requires { F.IsAlwaysCallable operation }
{
    let sections = fields.sections()?;
    let first = fields.number()?;
    let second = fields.number()?;
    fields.end()?;
    Ok(print::outcome(rt, operation(sections, first, second))?)
}

// Calls the function of that name.
pub(crate) fn call(
    rt: &impl Print,
    name: &[u8],
    fields: Fields<'_>,
    tables: &mut Tables,
) -> Result<(), Fault> {
    match name {
        b"plan" => plan_requests(rt, fields, tables),
        b"inspect" => inspect(rt, fields, tables),
        b"run" => run_script(rt, fields, tables),
        b"from_uses" => from_uses(rt, fields, tables),
        b"read" => read_plan(rt, fields, tables),
        b"write" => write_plan(rt, fields, tables),
        b"reply" => reply_to(rt, fields, tables),
        b"byte_size" => byte_size(rt, fields, tables),
        b"from_shapes" => from_shapes(rt, fields, tables),
        b"open" => open(rt, fields),
        b"allocate_persistent" => operate(rt, fields, Sections::allocate_persistent),
        b"allocate_temp" => operate(rt, fields, Sections::allocate_temp),
        b"reset_temp" => operate(rt, fields, |sections, _, _| sections.reset_temp()),
        b"set_head" => operate(rt, fields, |sections, length, _| sections.set_head(length)),
        _ => Err(Fault::NotVector),
    }
}
