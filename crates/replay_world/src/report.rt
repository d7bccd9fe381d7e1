//! The report of a world.
ghost use Rattle.std.specs.Prelude.{◌≡◌, ◌++◌, IfOk, OnOk};
ghost use Rattle.sync_model.specs.Report.{client_lines, clients_lines};
ghost use Rattle.run_setting.specs.Hashed.{hashed};
ghost use Rattle.replay_world.specs.Reports.{full_report};

use crate::report_clients::{write_all_fates, write_all_values, write_caught_up, write_sides};
use crate::report_counts::{write_events, write_totals};
use crate::report_entities::{write_entities, write_server};
use crate::world::World;
use replay_client::Client;
use report_lines::write_digest_line;
use wire_fields::{NoMemory, Octets};

impl World {
    fn write_client(&self, out: &mut Vec<u8>, number: u32, client: &Client) -> Result<(), NoMemory>
        ensures { OnOk result (out.new.items ≡ out.old.items ++ client_lines hashed self.now number client.now) }
    {
        write_caught_up(out, self.server.version(), number, client)?;
        write_sides(out, number, client)?;
        write_all_values(out, number, client)?;
        write_all_fates(out, self.alloc, &self.happened, &self.settlements, number)
    }

    fn write_clients(&self, out: &mut Vec<u8>) -> Result<(), NoMemory>
        ensures { OnOk result (out.new.items ≡ out.old.items ++ clients_lines hashed self.now 1 self.now.clients) }
    {
        for place in 0..self.clients.len() {
            self.write_client(out, place as u32 + 1, &self.clients[place])?;
        }
        Ok(())
    }

    /// The report: what the server and the clients hold, and the fate of each edit, a line each, and at last the digest of
    /// all messages. For each client and type it goes once over the settlements and once over the events; else it takes
    /// time linear in what the world holds and in the text, and the logarithm of the number of edits for each fate.
    pub fn report(&self) -> Result<Octets, NoMemory>
        ensures { IfOk result (λ text. text ≡ full_report self.now) }
    {
        let mut out = Vec::new(self.alloc);
        write_events(&mut out, &self.happened)?;
        write_server(&mut out, &self.server)?;
        write_entities(&mut out, self.alloc, &self.server)?;
        self.write_clients(&mut out)?;
        write_totals(&mut out, &self.happened)?;
        write_digest_line(&mut out, &self.record.digest())?;
        Ok(Octets::from_vec(out))
    }
}
