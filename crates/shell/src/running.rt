use crate::commissioning::Desk;
use crate::replying::hub_call;
use crate::service::{NoStore, Plain, Service};
use crate::serving::Plan;
use crate::session::Session;
use bit_store::BitStore;
use commands::Kind;
use held_store::HeldStore;
use links::{Link, Store};
use list_store::ListStore;
use std::alloc::Global;
use std::io;
use std::io::{BufRead, BufReader, BufWriter, Write};

// The lines and answers of a run, and the hub that it commissions.
#[derive(Drop)]
struct Console<R, W> {
    heap: Global,
    session: Session<R, W>,
    desk: Desk,
}

impl<R: BufRead, W: Write> Console<R, W> {
    // Serves lines until a store is made; none at the end of the input.
    fn play<S: Service>(&mut self, service: &mut S) -> io::Result<Option<Plan>> {
        // Stays: a count of lines, since nothing says that an input ends.
        for _ in 0..u64::MAX {
            let Some(line) = self.session.next_line()? else {
                break;
            };
            if let Some(call) = hub_call(line) {
                let response = self.desk.serve(service, call, line)?;
                self.session.say(&response)?;
                continue;
            }
            let reply = service.reply(line);
            self.session.say(&reply.answer)?;
            if reply.plan.is_some() {
                return Ok(reply.plan);
            }
        }
        Ok(None)
    }

    // Serves lines with the store, or with a layer over it that holds changes back.
    // Stays: a line asks for a layer while the program runs, and a type is chosen before; `dyn` would want the same branch.
    fn play_over<S: Store + Drop>(&mut self, held: bool, store: S) -> io::Result<Option<Plan>> {
        if held {
            self.play(&mut HeldStore::new(store))
        } else {
            self.play(&mut Plain(store))
        }
    }

    // Makes the store, over memory of its own, and serves lines with it.
    fn play_with(&mut self, plan: Plan) -> io::Result<Option<Plan>> {
        let sizes = plan.sizes;
        match plan.kind {
            Kind::List => {
                let mut records = vec![in self.heap; Link::default(); sizes.limit()]?;
                self.play_over(plan.held, ListStore::new(sizes, records.as_mut_slice()))
            }
            Kind::Bits => {
                let mut words = vec![in self.heap; 0u32; BitStore::words_needed(sizes)]?;
                self.play_over(plan.held, BitStore::new(sizes, words.as_mut_slice()))
            }
        }
    }
}

// Reads commands from standard input until it ends, and writes their answers to standard output.
pub fn run(rt: &HostRuntime) -> io::Result<()> {
    let heap = rt.alloc();
    let input = BufReader::new(heap, rt.stdin())?;
    let output = BufWriter::new(heap, rt.stdout())?;
    let mut console = Console {
        heap,
        session: Session::new(input, output, heap),
        desk: Desk::new(heap),
    };
    let mut next = console.play(&mut NoStore)?;
    // Stays: a count of stores, since nothing says that an input ends.
    for _ in 0..u64::MAX {
        let Some(plan) = next else {
            break;
        };
        next = console.play_with(plan)?;
    }
    Ok(())
}
