// The same program as `trial`; its stdin and stdout are the calls on more slots than a queue may have.
#![tactic(auto)]

fn main(rt: HostRuntime) {
    let ended = trial_run::play_script(rt);
    streams::leave(rt, ended);
}
