// A record's call, made through the exports. It answers the code; none where the record cannot be read.
use crate::names::ON_BUCKET;
use crate::record::{Arguments, Record};
use storage::Layout;

impl Record {
    // Writes the record's bytes to the storage or the bucket, for what no call leaves.
    fn write(&self, s: &mut [u8]) -> Option<u32> {
        let at = self.arguments().n;
        let bytes = self.written()?;
        if Layout::STORAGE < at {
            return None;
        }
        for (place, x) in s.iter_mut().skip(at).zip(bytes) {
            *place = *x;
        }
        Some(0)
    }

    // The calls on the table but the two inserts. A call is matched by its number in the record where it is made: an enum of the calls
    // would need a match of the same numbers that makes it.
    fn on_table(&self, s: &mut [u8], key: &[u8], out: &mut [u8]) -> Option<u32> {
        let Arguments {
            state,
            direction,
            flag,
            a,
            b,
            c,
            d,
            slot,
            time,
            n,
            ..
        } = self.arguments();
        let code = match self.call() {
            1 => kbuckets::kbuckets_new(s, key, time, state, direction, flag),
            2 => kbuckets::kbuckets_update_node_status(s, key, state, direction, time),
            3 => kbuckets::kbuckets_update_node(s, key, flag, a, b, c, d, slot, state, time),
            5 => kbuckets::kbuckets_remove(s, key, time),
            6 => kbuckets::kbuckets_entry(s, key, time),
            7 => kbuckets::kbuckets_present_update(s, key, state, direction),
            8 => kbuckets::kbuckets_pending_update(s, key, state, direction),
            10 => kbuckets::kbuckets_iter(s, n, time, out),
            11 => {
                let distances = self.distances();
                let given = distances.get(..self.count())?;
                kbuckets::kbuckets_nodes_by_distances(s, given, n, time, out)
            }
            12 => kbuckets::kbuckets_closest_keys(s, key, n, time, out),
            13 => kbuckets::kbuckets_closest_values(s, key, n, time, out),
            14 => kbuckets::kbuckets_closest_values_predicate(
                s, key, flag, a, b, c, slot, n, time, out,
            ),
            15 => kbuckets::kbuckets_take_applied_pending(s, out),
            _ => return None,
        };
        Some(code)
    }

    // The inserts, 4 and 9, with as many numbers of windows and of closed dates as the record says.
    fn inserted(&self, s: &mut [u8], key: &[u8], out: &mut [u8]) -> Option<u32> {
        let Arguments {
            state,
            direction,
            flag,
            a,
            b,
            c,
            d,
            slot,
            time,
            year,
            month,
            day,
            minute,
            ..
        } = self.arguments();
        let windows = self.windows();
        let closed = self.closed();
        let windows = windows.get(..self.window_count())?;
        let closed = closed.get(..self.closed_count())?;
        let code = if self.call() == 4 {
            kbuckets::kbuckets_insert_or_update(
                s, key, flag, a, b, c, d, slot, state, direction, time, windows, closed, year,
                month, day, minute, out,
            )
        } else {
            kbuckets::kbuckets_absent_insert(
                s, key, flag, a, b, c, d, slot, state, direction, time, windows, closed, year,
                month, day, minute, out,
            )
        };
        Some(code)
    }

    // The calls on the bucket, by their numbers too.
    fn on_bucket(&self, s: &mut [u8], key: &[u8], out: &mut [u8]) -> Option<u32> {
        let Arguments {
            state,
            direction,
            flag,
            a,
            b,
            c,
            d,
            slot,
            time,
            ..
        } = self.arguments();
        let code = match self.call() {
            17 => kbuckets::kbuckets_b_new(s, time, state, direction),
            18 => kbuckets::kbuckets_b_insert(
                s, key, flag, a, b, c, d, slot, state, direction, time, out,
            ),
            19 => kbuckets::kbuckets_b_apply_pending(s, time, out),
            20 => kbuckets::kbuckets_b_update_status(s, key, state, direction),
            21 => kbuckets::kbuckets_b_update_value(s, key, flag, a, b, c, d, slot),
            22 => kbuckets::kbuckets_b_update_pending(s, state, direction),
            23 => kbuckets::kbuckets_b_remove(s, key, time),
            _ => return None,
        };
        Some(code)
    }

    // The call on a table or a bucket, of which as much is handed over as the record says.
    pub(crate) fn made(&self, s: &mut [u8], out: &mut [u8]) -> Option<u32> {
        let call = self.call();
        if call % ON_BUCKET == 0 {
            return self.write(s);
        }
        let key = self.key()?;
        let s = s.get_mut(..self.size())?;
        let out = out.get_mut(..self.room())?;
        match call {
            4 | 9 => self.inserted(s, key, out),
            _ if call < ON_BUCKET => self.on_table(s, key, out),
            _ => self.on_bucket(s, key, out),
        }
    }
}
