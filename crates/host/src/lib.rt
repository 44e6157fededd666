// The calls that take their engine, as a C program makes them: with numbers, the table's bytes and a reply of 12 bytes.
// Host numbers are 64 bits wide, as usize is, so that `as` cuts none on the way in; the value is 32. Each call begins
// alike: a helper would take the rest as a closure over the lent table, which is no shorter.
#![tactic(auto)]

ghost use Rattle.std.specs.Prelude.{◌≡◌, min};
ghost use Rattle.rules.specs.Calls.{Put, Get, Deliver, Drain, Touch, Adopt};
ghost use Rattle.host.specs.Host.{left, PromiseBy, most_tries};

use reply::Reply;
use rows::by_value::EngineValue;
use touch::TouchRecord;

pub fn put<E: EngineValue>(
    site: u64,
    key: u64,
    value: u32,
    table: &mut [u8],
    reply: &mut [u8],
    engine: E,
) -> u32
    ensures { PromiseBy (E.engine engine) table.old reply.old (Put site key value) (left result table.new reply.new) }
{
    let Some(reply) = reply.as_mut_array() else {
        return Reply::WRONG_SIZE;
    };
    let a = table::put(table, site as usize, key as usize, value, engine);
    reply::answer(reply, a)
}

pub fn get<E: EngineValue>(
    site: u64,
    key: u64,
    table: &mut [u8],
    reply: &mut [u8],
    engine: E,
) -> u32
    ensures { PromiseBy (E.engine engine) table.old reply.old (Get site key) (left result table.new reply.new) }
{
    let Some(reply) = reply.as_mut_array() else {
        return Reply::WRONG_SIZE;
    };
    let a = table::get(table, site as usize, key as usize, engine);
    reply::answer(reply, a)
}

pub fn deliver<E: EngineValue>(
    site: u64,
    origin: u64,
    table: &mut [u8],
    reply: &mut [u8],
    engine: E,
) -> u32
    ensures { PromiseBy (E.engine engine) table.old reply.old (Deliver site origin) (left result table.new reply.new) }
{
    let Some(reply) = reply.as_mut_array() else {
        return Reply::WRONG_SIZE;
    };
    let a = deliver::deliver(table, site as usize, origin as usize, engine);
    reply::answer(reply, a)
}

// A budget above 65,535 counts as 65,535.
fn tries_allowed(budget: u64) -> u16
    ensures { result ≡ min budget most_tries }
{
    u16::try_from(budget).unwrap_or(u16::MAX)
}

pub fn drain<E: EngineValue>(
    site: u64,
    budget: u64,
    table: &mut [u8],
    reply: &mut [u8],
    engine: E,
) -> u32
    ensures { PromiseBy (E.engine engine) table.old reply.old (Drain site (min budget most_tries)) (left result table.new reply.new) }
{
    let Some(reply) = reply.as_mut_array() else {
        return Reply::WRONG_SIZE;
    };
    let a = drain::drain(table, site as usize, tries_allowed(budget), engine);
    reply::answer(reply, a)
}

pub fn touch<E: EngineValue>(
    site: u64,
    key: u64,
    hour: u64,
    toucher: u64,
    tier: u64,
    table: &mut [u8],
    reply: &mut [u8],
    engine: E,
) -> u32
    ensures { PromiseBy (E.engine engine) table.old reply.old (Touch site key hour toucher tier) (left result table.new reply.new) }
{
    let Some(reply) = reply.as_mut_array() else {
        return reply::wrong_size(TouchRecord::new(hour as usize, toucher as usize, tier as usize));
    };
    let a = touch::touch(
        table,
        site as usize,
        key as usize,
        hour as usize,
        toucher as usize,
        tier as usize,
        engine,
    );
    reply::answer(reply, a)
}

pub fn adopt<E: EngineValue>(
    site: u64,
    key: u64,
    origin: u64,
    clock: u64,
    table: &mut [u8],
    reply: &mut [u8],
    engine: E,
) -> u32
    ensures { PromiseBy (E.engine engine) table.old reply.old (Adopt site key origin clock) (left result table.new reply.new) }
{
    let Some(reply) = reply.as_mut_array() else {
        return Reply::WRONG_SIZE;
    };
    let a = look::adopt(
        table,
        site as usize,
        key as usize,
        origin as usize,
        clock as usize,
        engine,
    );
    reply::answer(reply, a)
}
