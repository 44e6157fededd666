// The calls that serve both engines, as a C program makes them: open, look and retire, and beside them the cold list.
// Host numbers are 64 bits wide, as usize is, so that `as` cuts none on the way in. Each begins as those of host do.
#![tactic(auto)]

ghost use Rattle.rules.specs.Calls.{Open, Look, Retire};
ghost use Rattle.host.specs.Host.{left, Promise};

use reply::Reply;

pub mod cold_list;

pub fn open(sites: u64, keys: u64, table: &mut [u8], reply: &mut [u8]) -> u32
    ensures { Promise table.old reply.old (Open sites keys) (left result table.new reply.new) }
{
    let Some(reply) = reply.as_mut_array() else {
        return Reply::WRONG_SIZE;
    };
    let a = table::open(table, sites as usize, keys as usize);
    reply::answer(reply, a)
}

pub fn look(site: u64, key: u64, table: &mut [u8], reply: &mut [u8]) -> u32
    ensures { Promise table.old reply.old (Look site key) (left result table.new reply.new) }
{
    let Some(reply) = reply.as_mut_array() else {
        return Reply::WRONG_SIZE;
    };
    let a = look::look(table, site as usize, key as usize);
    reply::answer(reply, a)
}

pub fn retire(site: u64, table: &mut [u8], reply: &mut [u8]) -> u32
    ensures { Promise table.old reply.old (Retire site) (left result table.new reply.new) }
{
    let Some(reply) = reply.as_mut_array() else {
        return Reply::WRONG_SIZE;
    };
    let a = retire::retire(table, site as usize);
    reply::answer(reply, a)
}
