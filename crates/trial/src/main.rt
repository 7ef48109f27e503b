// Plays a script of calls on two queues; its stdin and stdout are the fixed list.
#![tactic(auto)]

fn main(rt: HostRuntime) {
    let ended = trial_run::play_script(rt);
    streams::leave(rt, ended);
}
