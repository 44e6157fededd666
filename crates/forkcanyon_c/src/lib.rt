// The calls as a C program makes them: with numbers, the table's bytes and a reply of 12 bytes. Host numbers are
// 64 bits wide, so that none is cut on the way in; the value is 32. In C each engine has its own names: these and the
// calls with short lists differ in their engine alone.
#![tactic(auto)]

ghost use Rattle.std.specs.Prelude.{min};
ghost use Rattle.rules.specs.Calls.{Open, Put, Get, Deliver, Drain, Touch, Look, Adopt, Retire};
ghost use Rattle.host.specs.Host.{left, Promise, most_tries};

use forkcanyon::Ranked;

pub mod cold_list;
pub mod short_lists;

#[unsafe(no_mangle)]
pub extern "C" fn fc_open(sites: u64, keys: u64, table: &mut [u8], reply: &mut [u8]) -> u32
    ensures { Promise table.old reply.old (Open sites keys) (left result table.new reply.new) }
{
    forkcanyon::open(sites, keys, table, reply)
}

#[unsafe(no_mangle)]
pub extern "C" fn fc_put(site: u64, key: u64, value: u32, table: &mut [u8], reply: &mut [u8]) -> u32
    ensures { Promise table.old reply.old (Put site key value) (left result table.new reply.new) }
{
    forkcanyon::put(site, key, value, table, reply, Ranked)
}

#[unsafe(no_mangle)]
pub extern "C" fn fc_get(site: u64, key: u64, table: &mut [u8], reply: &mut [u8]) -> u32
    ensures { Promise table.old reply.old (Get site key) (left result table.new reply.new) }
{
    forkcanyon::get(site, key, table, reply, Ranked)
}

#[unsafe(no_mangle)]
pub extern "C" fn fc_deliver(site: u64, origin: u64, table: &mut [u8], reply: &mut [u8]) -> u32
    ensures { Promise table.old reply.old (Deliver site origin) (left result table.new reply.new) }
{
    forkcanyon::deliver(site, origin, table, reply, Ranked)
}

#[unsafe(no_mangle)]
pub extern "C" fn fc_drain(site: u64, budget: u64, table: &mut [u8], reply: &mut [u8]) -> u32
    ensures { Promise table.old reply.old (Drain site (min budget most_tries)) (left result table.new reply.new) }
{
    forkcanyon::drain(site, budget, table, reply, Ranked)
}

#[unsafe(no_mangle)]
pub extern "C" fn fc_touch(
    site: u64,
    key: u64,
    hour: u64,
    toucher: u64,
    tier: u64,
    table: &mut [u8],
    reply: &mut [u8],
) -> u32
    ensures { Promise table.old reply.old (Touch site key hour toucher tier) (left result table.new reply.new) }
{
    forkcanyon::touch(site, key, hour, toucher, tier, table, reply, Ranked)
}

#[unsafe(no_mangle)]
pub extern "C" fn fc_look(site: u64, key: u64, table: &mut [u8], reply: &mut [u8]) -> u32
    ensures { Promise table.old reply.old (Look site key) (left result table.new reply.new) }
{
    forkcanyon::look(site, key, table, reply)
}

#[unsafe(no_mangle)]
pub extern "C" fn fc_adopt(
    site: u64,
    key: u64,
    origin: u64,
    clock: u64,
    table: &mut [u8],
    reply: &mut [u8],
) -> u32
    ensures { Promise table.old reply.old (Adopt site key origin clock) (left result table.new reply.new) }
{
    forkcanyon::adopt(site, key, origin, clock, table, reply, Ranked)
}

#[unsafe(no_mangle)]
pub extern "C" fn fc_retire(site: u64, table: &mut [u8], reply: &mut [u8]) -> u32
    ensures { Promise table.old reply.old (Retire site) (left result table.new reply.new) }
{
    forkcanyon::retire(site, table, reply)
}
