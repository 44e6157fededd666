// The cold list as a C program asks for it: with a lent list of 64 bytes beside the table and the reply.
ghost use Rattle.both.specs.ColdHost.{left, Promise};

pub fn cold(
    site: u64,
    hour: u64,
    threshold: u64,
    table: &mut [u8],
    list: &mut [u8],
    reply: &mut [u8],
) -> u32
    ensures { Promise table.old list.old reply.old site hour threshold (left result table.new list.new reply.new) }
{
    let Some(reply) = reply.as_mut_array() else {
        return reply::wrong_size(cold::words_refusal(
            hour as usize,
            threshold as usize,
            list.len(),
        ));
    };
    let a = cold::cold(
        table,
        list,
        site as usize,
        hour as usize,
        threshold as usize,
    );
    reply::answer(reply, a)
}
