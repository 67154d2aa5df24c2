// One pick (document 01, "One pick"): the net after it comes back with the answer.
ghost use Rattle.std.specs.Prelude.{◌<◌, ◌≡◌, true};
ghost use Rattle.sound.specs.Soundness.{sound_of};
ghost use Rattle.step.specs.Pick.{host_of, slot_of, step_of, pick_of};
ghost use Rattle.step.specs.PutBack.{put_back};
ghost use Rattle.step.specs.Sharing.{shared_of, shared_at};
ghost use Rattle.step.specs.Turn.{turn_at, plan_at};

use crate::sharing::share_out;
use crate::turn::{
    Turn, changes_net, count_after, host_after, host_of, plan_with, seat_of, turn_of,
};
use net::locality::Locality;
use net::network::Net;
use plans::answer::Answer;
use plans::plan::Plan;
use sound::soundness::sound;

// The net after a pick, with its answer.
#[derive(Clone, Copy)]
pub struct Picked {
    pub answer: Answer,
    pub net: Net,
}

// A net that makes picks.
#[derive(Clone, Copy)]
pub struct Machine {
    pub net: Net,
}

impl Machine {
    // What a pick asks for.
    #[tactic(auto, using(crate::proofs::TurnLaws::turn_at_law), unfolding(net::specs::Records::node_at, net::specs::Records::instruction_at))]
    fn turn_at(&self, b: u8) -> Turn
        ensures { (result ≡ turn_at self.now.net b) × (result.target.0 < 16) × (result.source.0 < 16) }
    {
        let net = &self.net;
        let host = host_of(b).0 as usize;
        let seat = seat_of(b, net.format, net.addresses, net.nodes[host]);
        turn_of(seat, net.code[seat.index])
    }

    // The plan of a turn, drawn from the node at its source.
    #[tactic(auto, unfolding(crate::specs::Turn::plan_at, net::specs::Records::node_at))]
    fn plan_at(&self, turn: Turn) -> Plan
        requires { turn.source.0 < 16 }
        ensures { result ≡ plan_at self.now.net turn }
    {
        let net = &self.net;
        plan_with(&net.code, turn, net.nodes[turn.source.0 as usize])
    }

    // The plan of a pick put back: its target l first, then its host as it is then.
    #[tactic(auto, using(crate::proofs::TurnLaws::put_is, crate::proofs::TurnLaws::put_nothing), unfolding(net::specs::Records::node_at))]
    fn put_back(&mut self, b: u8, l: Locality, plan: Plan)
        requires { l.0 < 16 }
        ensures { self.new.net ≡ put_back self.old.net (host_of b) (slot_of b) l plan }
    {
        if changes_net(plan.answer) {
            let host = host_of(b).0 as usize;
            let net = &mut self.net;
            net.nodes[l.0 as usize] = plan.target;
            net.nodes[host] = host_after(b, net.format, l, plan, net.nodes[host]);
            net.addresses = count_after(plan.opens, net.addresses);
        }
    }

    // The turn of an out to a set, which concerns many nodes.
    #[tactic(auto, unfolding(crate::specs::Sharing::shared_at, crate::specs::Sharing::with_nodes))]
    fn share(mut self, turn: Turn) -> Picked
        ensures { result ≡ shared_at self.net (shared_of self.net.nodes turn) }
    {
        let shared = share_out(self.net.nodes, turn);
        let nodes = shared.nodes;
        self.net.nodes = nodes;
        Picked {
            answer: shared.answer,
            net: self.net,
        }
    }

    // A pick on a net that is known to be sound.
    pub fn step(mut self, b: u8) -> Picked
        ensures { result ≡ step_of self.net b }
    {
        let turn = self.turn_at(b);
        if turn.group.0 == 0 {
            let plan = self.plan_at(turn);
            self.put_back(b, turn.target, plan);
            Picked {
                answer: plan.answer,
                net: self.net,
            }
        } else {
            self.share(turn)
        }
    }

    // A pick on any net. A sound net stays sound.
    pub fn pick(self, b: u8) -> Picked
        ensures { (result ≡ pick_of self.net b) × (sound_of self.net ≡ true → sound_of result.net ≡ true) }
    {
        let net = self.net;
        if sound(net) {
            self.step(b)
        } else {
            let answer = Answer::Unsound;
            Picked { answer, net }
        }
    }
}
