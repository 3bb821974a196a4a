//! Laws of the definitions. Each function's contract is a law; its body is empty.

ghost use Rattle.zpeers.specs.Laws.{MessagesComeWhole, NoneIsRefused, QueuesKeepOrder};

/// The records of messages, taken one by one, give exactly these messages, each at its last record.
pub fn messages_come_whole()
    ensures whole { MessagesComeWhole }
    ensures refused { NoneIsRefused }
{}

/// What is written for a receiver is what was put, in order.
pub fn queues_keep_order()
    ensures { QueuesKeepOrder }
{}
