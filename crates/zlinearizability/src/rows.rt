//! Worked runs in which channels lose their ends. Each function's contract has some, and its body
//! does nothing.

ghost use Rattle.std.specs.Prelude.{◌≡◌, None, [], ◌∷◌, take};
ghost use Rattle.zprotocol.specs.declared.message.Message.TheVariants as message;
ghost use Rattle.zprotocol.specs.world.support.RunRows.{m, s1, s2, s3, c1};
ghost use Rattle.zprotocol.specs.world.support.RunRows.{config, one_create, request};
ghost use Rattle.zlinearizability.specs.Cuts.{cut_links};
ghost use Rattle.zlinearizability.specs.support.CutRows.{after_cuts, cut_then_begun, each, first_answered};
ghost use Rattle.zlinearizability.specs.support.CutRows.{head_fails_with_what_it_sent, on, order_stays};
ghost use Rattle.zlinearizability.specs.support.CutRows.{request_cut, second_update_cut, seen_with_cuts};
ghost use Rattle.zlinearizability.specs.support.CutRows.{three, three_each};

/// Of what is in flight a prefix remains, on each channel by itself. The master's channels lose
/// nothing.
pub fn channels_lose_their_ends()
    ensures end { cut_links (each 2) three_each s1 s2 ≡ message.Ack 0 1 ∷ message.Ack 0 2 ∷ [] }
    ensures of_a_client { cut_links (each 1) three_each c1 s1 ≡ message.Ack 0 1 ∷ [] }
    ensures to_the_master { cut_links (each 0) three_each s3 m ≡ [] }
    ensures of_the_master { cut_links (each 0) three_each m s2 ≡ three }
    ensures each_by_itself { cut_links (on s1 s2 0) three_each s2 s1 ≡ three }
    ensures no_more { cut_links (each 4) three_each s1 s2 ≡ three }
{}

/// The channels are cut first, and then the event happens.
pub fn cuts_come_before_events()
    ensures lost { (after_cuts request_cut).links c1 s1 ≡ [] }
    ensures unheard { ((after_cuts request_cut).servers 1).last ≡ 0 }
    ensures sent { (after_cuts cut_then_begun).links c1 s1 ≡ request }
{}

/// What a failed server had sent is lost. Only its failure notice follows, and the call is answered
/// once.
pub fn failure_takes_what_was_sent()
    ensures lost { (after_cuts (take 3 head_fails_with_what_it_sent)).links s1 s2 ≡ [] }
    ensures gone { (after_cuts (take 3 head_fails_with_what_it_sent)).links s1 m
        ≡ message.Gone ∷ [] }
    ensures seen { seen_with_cuts head_fails_with_what_it_sent ≡ one_create }
{}

/// A connection between two running servers breaks: what was in front arrives, and the rest
/// doesn't.
pub fn connection_breaks()
    ensures arrived { ((after_cuts second_update_cut).servers 2).last ≡ 1 }
    ensures seen { seen_with_cuts second_update_cut ≡ first_answered }
{}

/// The master's orders and its messages to clients arrive, whatever is lost elsewhere.
pub fn orders_are_not_lost()
    ensures head { ((after_cuts order_stays).servers 2).pred ≡ None }
    ensures reported { (after_cuts order_stays).links m c1 ≡ config 1 2 3 }
{}
