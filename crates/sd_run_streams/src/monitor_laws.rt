//! What the monitor writes.

ghost use Rattle.std.specs.Prelude.{◌≡◌, ◌-◌, ◌^◌, ◌≤◌, ℕ, List, length};
ghost use Rattle.std.specs.List.{concat};
ghost use Rattle.sd_site_cards.specs.SiteFields.{SiteFields};
ghost use Rattle.sd_engine.specs.Stage.{Chain};
ghost use Rattle.sd_run_streams.specs.MessageLines.{message_lines};
ghost use Rattle.sd_run_streams.specs.MonitorStaged.{IsBegun, monitor_does};
ghost use Rattle.sd_run_streams.specs.declared.monitor.Monitor.{Monitor};

/// Packets one after the other write their lines: those of what `emm_read` and `ecm_read` say of each packet on the
/// site's PIDs, and no step is taken.
pub fn chains_write_messages()
    ensures { (site : SiteFields) (packets : List (List ℕ)) (s t : Monitor) (bytes : List ℕ) (n : ℕ) →
        IsBegun site s → length packets ≤ 2 ^ 64 - 1 → Chain monitor_does s packets t bytes n →
        (bytes ≡ concat (message_lines site 0 packets)) × (n ≡ 0) }
{}
