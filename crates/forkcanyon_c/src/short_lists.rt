// The calls with short lists: a put sends its site's last put and what the site got or adopted since. A table is opened
// with fc_open, and its other calls but looks and cold lists are all short, or none is.
ghost use Rattle.std.specs.Prelude.{min};
ghost use Rattle.rules.specs.Calls.{Put, Get, Deliver, Drain, Touch, Adopt};
ghost use Rattle.host.specs.Host.{left, most_tries};
ghost use Rattle.forkcanyon.specs.ShortHost.{Promise};

use forkcanyon::Short;

#[unsafe(no_mangle)]
pub extern "C" fn fc_short_put(
    site: u64,
    key: u64,
    value: u32,
    table: &mut [u8],
    reply: &mut [u8],
) -> u32
    ensures { Promise table.old reply.old (Put site key value) (left result table.new reply.new) }
{
    forkcanyon::put(site, key, value, table, reply, Short)
}

#[unsafe(no_mangle)]
pub extern "C" fn fc_short_get(site: u64, key: u64, table: &mut [u8], reply: &mut [u8]) -> u32
    ensures { Promise table.old reply.old (Get site key) (left result table.new reply.new) }
{
    forkcanyon::get(site, key, table, reply, Short)
}

#[unsafe(no_mangle)]
pub extern "C" fn fc_short_adopt(
    site: u64,
    key: u64,
    origin: u64,
    clock: u64,
    table: &mut [u8],
    reply: &mut [u8],
) -> u32
    ensures { Promise table.old reply.old (Adopt site key origin clock) (left result table.new reply.new) }
{
    forkcanyon::adopt(site, key, origin, clock, table, reply, Short)
}

#[unsafe(no_mangle)]
pub extern "C" fn fc_short_touch(
    site: u64,
    key: u64,
    hour: u64,
    toucher: u64,
    tier: u64,
    table: &mut [u8],
    reply: &mut [u8],
) -> u32
    ensures { Promise table.old reply.old (Touch site key hour toucher tier) (left result table.new reply.new) }
{
    forkcanyon::touch(site, key, hour, toucher, tier, table, reply, Short)
}

#[unsafe(no_mangle)]
pub extern "C" fn fc_short_deliver(
    site: u64,
    origin: u64,
    table: &mut [u8],
    reply: &mut [u8],
) -> u32
    ensures { Promise table.old reply.old (Deliver site origin) (left result table.new reply.new) }
{
    forkcanyon::deliver(site, origin, table, reply, Short)
}

#[unsafe(no_mangle)]
pub extern "C" fn fc_short_drain(site: u64, budget: u64, table: &mut [u8], reply: &mut [u8]) -> u32
    ensures { Promise table.old reply.old (Drain site (min budget most_tries)) (left result table.new reply.new) }
{
    forkcanyon::drain(site, budget, table, reply, Short)
}
